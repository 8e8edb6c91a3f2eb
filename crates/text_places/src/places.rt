// Lines and columns of bytes.
ghost use Rattle.std.specs.Prelude.{◌≡◌, ◌≤◌, ◌<◌, ◌+◌, ◌/◌, ◌^◌, IfOk, length};
ghost use Rattle.text_places.specs.Places as specs;

use qbs_base::{Items, NoMemory, Span};
use std::alloc::Global;

/// The line and the column of a byte, both counted from 1, the column in bytes. Only a line feed ends a line.
#[derive(Clone, Copy, PartialEq, Eq)]
pub struct Place {
    pub line: u64,
    pub column: u64,
}

impl Place {
    /// That of the first byte.
    pub const FIRST: Place = Place { line: 1, column: 1 };
}

/// The place behind a byte.
fn behind(place: Place, byte: u8) -> Place
    requires line { place.line + 1 < 2 ^ 64 }
    requires column { place.column + 1 < 2 ^ 64 }
    ensures { result ≡ specs.behind place byte }
{
    if byte == b'\n' {
        Place {
            line: place.line + 1,
            column: 1,
        }
    } else {
        Place {
            line: place.line,
            column: place.column + 1,
        }
    }
}

/// The place behind bytes.
#[tactic(auto, using(crate::proofs::Moved::moved_line, crate::proofs::Moved::moved_column))]
fn moved(from: Place, bytes: &[u8]) -> Place
    requires line { from.line + length bytes.now < 2 ^ 64 }
    requires column { from.column + length bytes.now < 2 ^ 64 }
    ensures { result ≡ specs.moved from bytes.now }
{
    let mut place = from;
    for byte in bytes {
        place = behind(place, *byte);
    }
    place
}

/// The place of a byte, where that of another one is known.
#[tactic(auto, using(crate::proofs::Moved::place_further, crate::proofs::Moved::place_line, crate::proofs::Moved::place_column))]
fn place_from(bytes: &[u8], known: usize, place: Place, at: usize) -> Place
    requires known { known ≤ length bytes.now }
    requires place { place ≡ specs.place_in bytes.now known }
    requires at { at ≤ length bytes.now }
    ensures { result ≡ specs.place_in bytes.now at }
{
    if known <= at {
        moved(place, &bytes[known..at])
    } else {
        moved(Place::FIRST, &bytes[..at])
    }
}

/// The empty stretch before the byte with this number, or behind the last byte.
pub fn span_in(bytes: &[u8], at: usize) -> Span
    ensures { result ≡ specs.span_in bytes.now at }
{
    let place = place_from(bytes, 0, Place::FIRST, at.min(bytes.len()));
    span_of(place, at)
}

fn span_of(place: Place, at: usize) -> Span
    ensures { result ≡ specs.span_of place at }
{
    Span {
        line: place.line,
        column: place.column,
        start: at as u64,
        end: at as u64,
    }
}

/// Every so many bytes a place is kept.
const STRIDE: usize = 4096;

/// The places of every 4096th byte of a text, with which those of others are found at once.
#[tactic(auto, using(crate::proofs::Moved::marked_behind))]
pub fn marks_in(alloc: Global, bytes: &[u8]) -> Result<Items<Place>, NoMemory>
    ensures marks { IfOk result (specs.AreMarks bytes.now) }
    ensures many { IfOk result (λ marks. length marks ≡ length bytes.now / 4096 + 1) }
{
    let mut marks = Items::new(alloc);
    let mut place = Place::FIRST;
    let count = bytes.len() / STRIDE;
    for number in 0..count {
        marks.push(place)?;
        place = place_from(bytes, number * STRIDE, place, (number + 1) * STRIDE);
    }
    marks.push(place)?;
    Ok(marks)
}

/// The same as `span_in`, in a time that doesn't grow with the text.
#[tactic(auto)]
pub fn span_by(bytes: &[u8], marks: &[Place], at: usize) -> Span
    requires { specs.AreMarks bytes.now marks.now }
    ensures { result ≡ specs.span_in bytes.now at }
{
    let within = at.min(bytes.len());
    let number = within / STRIDE;
    match marks.get(number) {
        Some(mark) => span_of(place_from(bytes, number * STRIDE, *mark, within), at),
        None => span_in(bytes, at),
    }
}
