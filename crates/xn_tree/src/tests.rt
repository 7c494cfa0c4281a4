//! Stated states, and walks through stated trees.
use super::*;
use std::alloc::Global;
use std::test::Fail;
use xn_graph::Graph;
use xn_list::Sequence;

mod states;
mod walks;
