//! Values that are checked and not kept.
ghost use Rattle.std.specs.Prelude.{◌≡◌, ◌∷◌, ◌<◌, ◌≤◌, Err, IfOk, OnOk, Ok, length};
ghost use Rattle.json.specs.Reads.{token_of};
ghost use Rattle.serde_json.specs.Data.{Data, Items, Members};
ghost use Rattle.bl_witness.specs.Taken.{LacksItems, LacksMembers, LacksValue, TakesItems, TakesMembers, TakesValue};

use crate::fault::Fault;
use crate::numbers::is_in_range;
use json::{Reader, Token};

/// Passes a value whose arrays and objects nest so deep at most.
#[cycle(pass)]
pub(crate) fn pass(reader: &mut Reader<'_>, depth: usize) -> Result<(), Fault>
    ensures ok { IfOk result (λ _. (d : Data) × TakesValue depth reader.old d reader.new) }
    ensures shorter { OnOk result (length reader.new < length reader.old) }
    ensures err { result ≡ Err Fault.NotJson → LacksValue depth reader.old }
{
    let token = reader.next().ok_or(Fault::NotJson)?;
    pass_rest(reader, token, depth)
}

/// The same, where the value's first token is taken already.
#[cycle(pass)]
pub(crate) fn pass_rest(
    reader: &mut Reader<'_>,
    token: Token<'_>,
    depth: usize,
) -> Result<(), Fault>
    ensures ok { IfOk result (λ _. (d : Data) × TakesValue depth (token_of token.entry ∷ reader.old) d reader.new) }
    ensures shorter { OnOk result (length reader.new ≤ length reader.old) }
    ensures err { result ≡ Err Fault.NotJson → LacksValue depth (token_of token.entry ∷ reader.old) }
{
    match token {
        Token::String(_) => Ok(()),
        Token::Bool(_) => Ok(()),
        Token::Null => Ok(()),
        Token::Number(text) => if is_in_range(text) {
            Ok(())
        } else {
            Err(Fault::NotJson)
        },
        Token::EndObject | Token::EndArray | Token::Key(_) | Token::Bad => Err(Fault::NotJson),
        Token::BeginArray => if depth == 0 {
            Err(Fault::NotJson)
        } else {
            pass_items(reader, depth - 1)
        },
        Token::BeginObject => if depth == 0 {
            Err(Fault::NotJson)
        } else {
            pass_members(reader, depth - 1)
        },
    }
}

/// Passes an array's items, and its end.
#[cycle(pass)]
fn pass_items(reader: &mut Reader<'_>, depth: usize) -> Result<(), Fault>
    ensures ok { IfOk result (λ _. (ds : Items) × TakesItems depth reader.old ds reader.new) }
    ensures shorter { OnOk result (length reader.new < length reader.old) }
    ensures err { result ≡ Err Fault.NotJson → LacksItems depth reader.old }
{
    'items: while !reader.take_end_array() {
        pass(reader, depth)?;
    }
    Ok(())
}

/// Passes an object's members, and its end.
#[cycle(pass)]
fn pass_members(reader: &mut Reader<'_>, depth: usize) -> Result<(), Fault>
    ensures ok { IfOk result (λ _. (ms : Members) × TakesMembers depth reader.old ms reader.new) }
    ensures shorter { OnOk result (length reader.new < length reader.old) }
    ensures err { result ≡ Err Fault.NotJson → LacksMembers depth reader.old }
{
    'members: while let Some(_) = reader.next_key()? {
        pass(reader, depth)?;
    }
    Ok(())
}
