// Lines are appended to a text. After want of memory a part of a line may have been appended.
ghost use Rattle.std.specs.Prelude.{◌≡◌, ◌++◌, ◌∷◌, [], OnOk};
ghost use Rattle.xn_proof.specs.Spelling.{line, numbers_of, spaced};

use std::alloc::AllocError;
use xn_text::put_u64;

/// A number behind a space.
pub fn put_number(to: &mut Vec<u8>, n: u64) -> Result<(), AllocError>
    ensures { OnOk result (to.new.items ≡ to.old.items ++ spaced (n ∷ [])) }
{
    to.push(b' ')?;
    put_u64(to, n)?;
    Ok(())
}

fn put_numbers(to: &mut Vec<u8>, numbers: &[u64]) -> Result<(), AllocError>
    ensures { OnOk result (to.new.items ≡ to.old.items ++ spaced numbers.now) }
{
    for n in numbers {
        put_number(to, *n)?;
    }
    Ok(())
}

fn put_list(to: &mut Vec<u8>, list: &[u32]) -> Result<(), AllocError>
    ensures { OnOk result (to.new.items ≡ to.old.items ++ spaced list.now) }
{
    for n in list {
        put_number(to, u64::from(*n))?;
    }
    Ok(())
}

/// A line of a key, numbers and a list.
pub fn put_list_line(
    to: &mut Vec<u8>,
    key: &[u8],
    numbers: &[u64],
    list: &[u32],
) -> Result<(), AllocError>
    ensures { OnOk result (to.new.items ≡ to.old.items ++ line key.now (numbers.now ++ list.now)) }
{
    to.extend_from_slice(key)?;
    put_numbers(to, numbers)?;
    put_list(to, list)?;
    to.push(b'\n')?;
    Ok(())
}

/// A line of a key and numbers.
pub fn put_line(to: &mut Vec<u8>, key: &[u8], numbers: &[u64]) -> Result<(), AllocError>
    ensures { OnOk result (to.new.items ≡ to.old.items ++ line key.now numbers.now) }
{
    to.extend_from_slice(key)?;
    put_numbers(to, numbers)?;
    to.push(b'\n')?;
    Ok(())
}

/// A line of a key, numbers and pairs of numbers.
pub fn put_pairs_line(
    to: &mut Vec<u8>,
    key: &[u8],
    numbers: &[u64],
    pairs: &[(u32, u64)],
) -> Result<(), AllocError>
    ensures { OnOk result (to.new.items ≡ to.old.items ++ line key.now (numbers.now ++ numbers_of pairs.now)) }
{
    to.extend_from_slice(key)?;
    put_numbers(to, numbers)?;
    put_pairs(to, pairs)?;
    to.push(b'\n')?;
    Ok(())
}

fn put_pairs(to: &mut Vec<u8>, pairs: &[(u32, u64)]) -> Result<(), AllocError>
    ensures { OnOk result (to.new.items ≡ to.old.items ++ spaced (numbers_of pairs.now)) }
{
    for pair in pairs {
        put_number(to, u64::from(pair.0))?;
        put_number(to, pair.1)?;
    }
    Ok(())
}
