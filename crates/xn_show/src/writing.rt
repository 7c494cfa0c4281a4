// Lines are appended to a text. After want of memory a part of a line may have been appended.
ghost use Rattle.std.specs.Prelude.{◌≡◌, ◌++◌, OnOk, decimal, length};
ghost use Rattle.xn_model.specs.Lists.{at};
ghost use Rattle.xn_model.specs.Permutation.{walk};
ghost use Rattle.xn_show.specs.Darts.{StaysIn, dart_text};
ghost use Rattle.xn_show.specs.Text.{input_text, kind_text, node_line, segment_line, spaced, turn_text};

use std::alloc::AllocError;
use xn_text::{put_i128, put_u64};

/// Appends the line of a segment, a part of the edge e.
pub fn put_segment(to: &mut Vec<u8>, s: u32, ends: (u32, u32), e: u32) -> Result<(), AllocError>
    ensures { OnOk result (to.new.items ≡ to.old.items ++ segment_line s ends e) }
{
    put(to, b"  edge [ id ".as_slice(), s)?;
    put(to, b" source ".as_slice(), ends.0)?;
    put(to, b" target ".as_slice(), ends.1)?;
    put(to, b" of ".as_slice(), e)?;
    to.extend_from_slice(b" ]\n".as_slice())
}

/// Appends the line of a node with these darts, shown as they turn.
pub fn put_node(
    to: &mut Vec<u8>,
    ids: &[i64],
    v: u32,
    next: &[u32],
    star: &[u32],
) -> Result<(), AllocError>
    requires { StaysIn next.now star.now }
    ensures { OnOk result (to.new.items ≡ to.old.items ++ node_line ids.now v (walk (at next.now) (length star.now) (at star.now 0))) }
{
    put(to, b"  node [ id ".as_slice(), v)?;
    put_kind(to, ids, v)?;
    put_turn(to, next, star)
}

// What is said of a node: the first nodes have ids, and the others are crossings.
fn put_kind(to: &mut Vec<u8>, ids: &[i64], v: u32) -> Result<(), AllocError>
    ensures { OnOk result (to.new.items ≡ to.old.items ++ kind_text ids.now v) }
{
    if (v as usize) < ids.len() {
        put_input(to, ids[v as usize])
    } else {
        to.extend_from_slice(b" kind \"crossing\"".as_slice())
    }
}

// What is said of a node of the graph.
fn put_input(to: &mut Vec<u8>, id: i64) -> Result<(), AllocError>
    ensures { OnOk result (to.new.items ≡ to.old.items ++ input_text id) }
{
    to.extend_from_slice(b" label \"".as_slice())?;
    put_i128(to, i128::from(id))?;
    to.extend_from_slice(b"\" kind \"input\"".as_slice())?;
    Ok(())
}

// The end of the line of a node.
fn put_turn(to: &mut Vec<u8>, next: &[u32], star: &[u32]) -> Result<(), AllocError>
    requires { StaysIn next.now star.now }
    ensures { OnOk result (to.new.items ≡ to.old.items ++ turn_text (walk (at next.now) (length star.now) (at star.now 0))) }
{
    to.extend_from_slice(b" turn \"".as_slice())?;
    put_darts(to, next, star)?;
    to.extend_from_slice(b"\" ]\n".as_slice())?;
    Ok(())
}

// As many darts as the node has, from the least one on.
fn put_darts(to: &mut Vec<u8>, next: &[u32], star: &[u32]) -> Result<(), AllocError>
    requires { StaysIn next.now star.now }
    ensures { OnOk result (to.new.items ≡ to.old.items ++ spaced (walk (at next.now) (length star.now) (at star.now 0))) }
{
    let mut d = least(star);
    for i in 0..star.len() {
        put_dart(to, i, d)?;
        d = next[d as usize];
    }
    Ok(())
}

// The first of the darts of a node, or 0 where there is none.
fn least(star: &[u32]) -> u32
    ensures { result ≡ at star.now 0 }
{
    star.first().copied().unwrap_or(0)
}

// A dart behind i others: a space stands between each two.
fn put_dart(to: &mut Vec<u8>, i: usize, d: u32) -> Result<(), AllocError>
    ensures { OnOk result (to.new.items ≡ to.old.items ++ dart_text i d) }
{
    if i == 0 {
        put(to, b"".as_slice(), d)
    } else {
        put(to, b" ".as_slice(), d)
    }
}

// A text and a number behind it.
fn put(to: &mut Vec<u8>, text: &[u8], n: u32) -> Result<(), AllocError>
    ensures { OnOk result (to.new.items ≡ to.old.items ++ (text.now ++ decimal n)) }
{
    to.extend_from_slice(text)?;
    put_u64(to, u64::from(n))
}
