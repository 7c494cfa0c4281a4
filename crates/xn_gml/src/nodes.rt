// The node blocks of a graph.
ghost use Rattle.std.specs.Prelude.{◌≡◌, ◌<◌, ◌≤◌, [], None, All, IfOk};
ghost use Rattle.indexmap.specs.IndexMap.{index_map_len, values};
ghost use Rattle.xn_gml.specs.declared.token.Key.TheVariants.{Node};
ghost use Rattle.xn_gml.specs.Lists.{lists_of};
ghost use Rattle.xn_gml.specs.Meaning.{number_of, new_id, ids_from};
ghost use Rattle.xn_gml.specs.Reading.{Gives};

use crate::blocks::{integer_at, value_in};
use crate::errors::GmlErr;
use crate::lists::next_list;
use crate::pair::Pair;
use crate::stream::Tokens;
use crate::token::Key;
use indexmap::IndexMap;
use std::alloc::Global;

/// The ids of the node blocks of a graph, numbered in order. They may be at most 1,000.
pub fn node_ids(alloc: Global, list: &Tokens) -> Result<IndexMap<i64, u32>, GmlErr>
    ensures read { Gives (λ m. m.entries) result (ids_from 1000 [] (lists_of Node list.now)) }
    ensures few { IfOk result (λ m. index_map_len m ≤ 1000) }
    ensures numbered { IfOk result (λ m. All (λ n. n < index_map_len m) (values m)) }
{
    let mut ids = IndexMap::new(alloc);
    let mut tokens = list.again();
    while let Some(block) = next_list(&mut tokens, Key::Node) {
        if ids.len() >= 1000 {
            return Err(GmlErr::TooManyNodes);
        }
        let id = new_id(&ids, &block)?;
        let number = ids.len() as u32;
        ids.insert(id, number)?;
    }
    Ok(ids)
}

// The id of a node block, which no node before it may have.
#[tactic(auto, unfolding(crate::specs::Meaning::new_id))]
fn new_id(ids: &IndexMap<i64, u32>, block: &Pair) -> Result<i64, GmlErr>
    ensures value { result ≡ new_id ids.now.entries block.now }
    ensures new { IfOk result (λ id. number_of ids.now.entries id ≡ None) }
{
    let value = value_in(Key::Id, block)?;
    let id = integer_at(value)?;
    match ids.get(&id) {
        Some(_) => Err(GmlErr::Repeated(value.at)),
        None => Ok(id),
    }
}
