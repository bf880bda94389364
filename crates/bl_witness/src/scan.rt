//! Values that are read for what they are for a certificate.
ghost use Rattle.std.specs.Prelude.{◌≡◌, ◌<◌, ◌^◌, Err, IfOk, None, OnOk, Option, length};
ghost use Rattle.serde_json.specs.Data.{Data, Items};
ghost use Rattle.bl_witness.specs.Fields.{position_numbered, whole_in, with_one};
ghost use Rattle.bl_witness.specs.Shapes.{each_item, list_of, position_of, whole_below};
ghost use Rattle.bl_witness.specs.Taken.{LacksItems, LacksValue, TakesItems, TakesValue};

use crate::fault::Fault;
use crate::numbers::whole_number;
use crate::pass::pass_rest;
use bl_base::{List, NoMemory, Pos};
use json::{Reader, Token};
use std::alloc::Global;

/// What a JSON value may be. It is read of the value's tokens, and the value is not kept.
pub(crate) trait Shape: Drop {
    /// What a value is.
    ghost shape: { Data → Option Self };

    /// What the next value is, whose arrays and objects nest so deep at most.
    fn read(alloc: Global, reader: &mut Reader<'_>, depth: usize) -> Result<Option<Self>, Fault>
        ensures ok { IfOk result (λ found. (d : Data) × TakesValue depth reader.old d reader.new × (found ≡ shape d)) }
        ensures shorter { OnOk result (length reader.new < length reader.old) }
        ensures err { result ≡ Err Fault.NotJson → LacksValue depth reader.old };
}

impl Shape for u64 {
    ghost shape = { whole_below (2 ^ 64) };

    fn read(_alloc: Global, reader: &mut Reader<'_>, depth: usize) -> Result<Option<u64>, Fault> {
        let token = reader.next().ok_or(Fault::NotJson)?;
        match whole_of(token) {
            Some(number) => Ok(Some(number)),
            None => {
                pass_rest(reader, token, depth)?;
                Ok(None)
            }
        }
    }
}

/// The whole number that a token is.
fn whole_of(token: Token<'_>) -> Option<u64>
    ensures { result ≡ whole_in token.entry }
{
    match token {
        Token::Number(text) => whole_number(text),
        _ => None,
    }
}

impl Shape for Pos {
    ghost shape = { position_of };

    fn read(alloc: Global, reader: &mut Reader<'_>, depth: usize) -> Result<Option<Pos>, Fault> {
        match u64::read(alloc, reader, depth)? {
            Some(number) => Ok(to_position(number)),
            None => Ok(None),
        }
    }
}

/// The position of that number.
fn to_position(number: u64) -> Option<Pos>
    ensures { result ≡ position_numbered number }
{
    match u32::try_from(number) {
        Ok(position) => Some(Pos(position)),
        Err(_) => None,
    }
}

impl<T: Shape> Shape for List<T> {
    ghost shape = { list_of T.shape };

    fn read(
        alloc: Global,
        reader: &mut Reader<'_>,
        depth: usize,
    ) -> Result<Option<List<T>>, Fault> {
        let token = reader.next().ok_or(Fault::NotJson)?;
        match token {
            Token::BeginArray if depth > 0 => read_items(alloc, reader, depth - 1),
            _ => {
                pass_rest(reader, token, depth)?;
                Ok(None)
            }
        }
    }
}

/// What an array's items are, where each is something. Takes the array's end too.
fn read_items<T: Shape>(
    alloc: Global,
    reader: &mut Reader<'_>,
    depth: usize,
) -> Result<Option<List<T>>, Fault>
    ensures ok { IfOk result (λ found. (ds : Items) × TakesItems depth reader.old ds reader.new × (found ≡ each_item T.shape ds)) }
    ensures shorter { OnOk result (length reader.new < length reader.old) }
    ensures err { result ≡ Err Fault.NotJson → LacksItems depth reader.old }
{
    let mut found = Some(List::new(alloc));
    'items: while !reader.take_end_array() {
        let item = T::read(alloc, reader, depth)?;
        found = with_item(found, item)?;
    }
    Ok(found)
}

/// A list with one item more, where both are there.
fn with_item<T: Drop>(list: Option<List<T>>, item: Option<T>) -> Result<Option<List<T>>, NoMemory>
    ensures { IfOk result (λ all. all ≡ with_one list item) }
{
    let Some(mut found) = list else {
        return Ok(None);
    };
    let Some(one) = item else {
        return Ok(None);
    };
    found.push(one)?;
    Ok(Some(found))
}
