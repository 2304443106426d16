ghost use Rattle.std.specs.Prelude.{◌≡◌, ◌<◌, ◌≤◌, ◌+◌, ◌++◌, length, take, option_to_list, IfOk};
ghost use Rattle.gl_text.specs.LogicalLines.{folded, squeezed};
ghost use Rattle.gl_line.specs.Packing.{bytes_of};

use crate::squeeze::{kept_byte, squeeze};
use bstr::ByteSlice;
use std::alloc::{AllocError, Global};
use std::marker::Model;

/// How many bytes stand in place.
const IN_PLACE: usize = 22;

/// How bytes are kept.
#[derive(Debug, Drop)]
pub enum Form {
    /// So many bytes of an array.
    Short(u8, [u8; IN_PLACE]),
    /// A piece of memory.
    Long(Box<Vec<u8>>),
}

/// Bytes: up to 22 in place, more in a piece of memory. Contracts see them as a list.
#[derive(Debug, Drop)]
pub struct Packed {
    form: Form,
}

impl Model for Packed {
    ghost use Rattle.std.specs.Prelude.{ℕ, List};
    ghost use Rattle.gl_line.specs.Packing.{bytes_of, IsSound};

    ghost Value = { List ℕ };

    ghost view = { λ p. bytes_of p.form };

    ghost invariant = { λ p. IsSound p.form };
}

/// Few bytes, in place.
fn short(text: &[u8]) -> Packed
    requires few { length text.now ≤ 22 }
    ensures bytes { result ≡ text.now }
{
    let mut place = [0; IN_PLACE];
    place[..text.len()].copy_from_slice(text);
    Packed {
        form: Form::Short(text.len() as u8, place),
    }
}

/// Few bytes in place, large letters as small ones.
fn short_folded(text: &[u8]) -> Packed
    requires few { length text.now ≤ 22 }
    ensures folded { result ≡ folded text.now }
{
    let mut place = [0; IN_PLACE];
    for index in 0..text.len() {
        place[index] = text[index].to_ascii_lowercase();
    }
    Packed {
        form: Form::Short(text.len() as u8, place),
    }
}

/// A byte behind the first so many, if there is one; how many there are then.
fn put(place: &mut [u8], len: usize, byte: Option<u8>) -> usize
    requires room { len < length place.old }
    ensures len { length place.new ≡ length place.old }
    ensures put { take result place.new ≡ take len place.old ++ option_to_list byte }
    ensures more { (len ≤ result) × (result ≤ len + 1) }
{
    match byte {
        Some(byte) => {
            place[len] = byte;
            len + 1
        }
        None => len,
    }
}

/// Few bytes in place, with one space for each run of blanks.
fn short_squeezed(text: &[u8]) -> Packed
    requires few { length text.now ≤ 22 }
    ensures squeezed { result ≡ squeezed text.now }
{
    let mut place = [0; IN_PLACE];
    let mut len = 0;
    let mut rest = text;
    while let [first, behind @ ..] = rest {
        len = put(&mut place, len, kept_byte(*first, behind));
        rest = behind;
    }
    Packed {
        form: Form::Short(len as u8, place),
    }
}

/// Bytes in a piece of memory.
fn long(alloc: Global, bytes: Vec<u8>) -> Result<Packed, AllocError>
    ensures bytes { IfOk result (λ packed. packed ≡ bytes.items) }
{
    Ok(Packed {
        form: Form::Long(Box::new(alloc, bytes)?),
    })
}

impl Packed {
    /// The bytes as they stand.
    pub fn of(alloc: Global, text: &[u8]) -> Result<Packed, AllocError>
        ensures bytes { IfOk result (λ packed. packed ≡ text.now) }
    {
        if text.len() <= IN_PLACE {
            return Ok(short(text));
        }
        long(alloc, Vec::from_slice(alloc, text)?)
    }

    /// The bytes, large letters as small ones.
    pub fn folded(alloc: Global, text: &[u8]) -> Result<Packed, AllocError>
        ensures folded { IfOk result (λ packed. packed ≡ folded text.now) }
    {
        if text.len() <= IN_PLACE {
            return Ok(short_folded(text));
        }
        long(alloc, text.to_ascii_lowercase(alloc)?)
    }

    /// The bytes with one space for each run of blanks.
    pub fn squeezed(alloc: Global, text: &[u8]) -> Result<Packed, AllocError>
        ensures squeezed { IfOk result (λ packed. packed ≡ squeezed text.now) }
    {
        if text.len() <= IN_PLACE {
            return Ok(short_squeezed(text));
        }
        Packed::from_vec(alloc, squeeze(alloc, text)?)
    }

    /// The bytes of a piece of memory, which is given back where they stand in place.
    pub fn from_vec(alloc: Global, bytes: Vec<u8>) -> Result<Packed, AllocError>
        ensures bytes { IfOk result (λ packed. packed ≡ bytes.items) }
    {
        if bytes.len() <= IN_PLACE {
            return Ok(short(&bytes));
        }
        long(alloc, bytes)
    }

    /// The bytes.
    pub fn as_bytes(&self) -> &[u8]
        ensures bytes { result.now ≡ self.now }
    {
        match &self.form {
            Form::Short(len, place) => &place[..*len as usize],
            Form::Long(bytes) => bytes.as_slice(),
        }
    }
}
