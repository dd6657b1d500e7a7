//! Components written as bytes.

ghost use Rattle.std.specs.Prelude.{◌≡◌, ◌++◌, ◌<◌, IsTrue, OnOk};
ghost use Rattle.mm_label.specs.Bytes.{spelling, one, two, five, bytes_of};
ghost use Rattle.mm_label.specs.Label.{all_in_range};

use crate::component::rank;
use smallvec::SmallVec;
use std::alloc::AllocError;

/// The most bytes of a label.
pub const LABEL_LIMIT: usize = 512;

/// The bytes of a label. Most labels are short, and take no memory of their own.
pub type Spelled = SmallVec<u8, 16>;

fn push_one(out: &mut Spelled, first: u64, n: u64) -> Result<(), AllocError>
    requires n { n < 128 }
    requires first { first < 128 }
    ensures { OnOk result (out.new.items ≡ out.old.items ++ one first n) }
{
    out.push((first + n) as u8)?;
    Ok(())
}

fn push_two(out: &mut Spelled, first: u64, n: u64) -> Result<(), AllocError>
    requires n { n < 8192 }
    requires first { first < 224 }
    ensures { OnOk result (out.new.items ≡ out.old.items ++ two first n) }
{
    out.push((first + n / 256) as u8)?;
    out.push((n % 256) as u8)?;
    Ok(())
}

fn push_five(out: &mut Spelled, first: u64, n: u64) -> Result<(), AllocError>
    requires n { n < 4294967296 }
    requires first { first < 256 }
    ensures { OnOk result (out.new.items ≡ out.old.items ++ five first n) }
{
    out.push(first as u8)?;
    out.extend_from_slice(&(n as u32).to_be_bytes())?;
    Ok(())
}

/// Puts the bytes of the component of this rank behind the others.
fn push_spelling(out: &mut Spelled, n: u64) -> Result<(), AllocError>
    requires { n < 8589951104 }
    ensures { OnOk result (out.new.items ≡ out.old.items ++ spelling n) }
{
    if n < 4294967296 {
        return push_five(out, 0x1f, n);
    }
    let n = n - 4294967296;
    if n < 8192 {
        return push_two(out, 0x20, n);
    }
    let n = n - 8192;
    if n < 128 {
        return push_one(out, 0x40, n);
    }
    let n = n - 128;
    if n < 8192 {
        return push_two(out, 0xc0, n);
    }
    push_five(out, 0xe0, n - 8192)
}

/// Puts the bytes of the components behind the others.
pub fn push_spelled(out: &mut Spelled, components: &[i64]) -> Result<(), AllocError>
    requires { IsTrue (all_in_range components.now) }
    ensures { OnOk result (out.new.items ≡ out.old.items ++ bytes_of components.now) }
{
    for c in components {
        push_spelling(out, rank(*c))?;
    }
    Ok(())
}
