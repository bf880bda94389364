//! Whether a command lacks a fact that it needs.
ghost use Rattle.std.specs.Prelude.{◌<◌, ◌∷◌, [], IfOk, length};
ghost use Rattle.bl_program.specs.Layout.{Holds};
ghost use Rattle.bl_program.specs.Rules.{IsOwn, variable};
ghost use Rattle.bl_definite.specs.Facts.{IsArgument, IsGiven, Needs, Reads};
ghost use Rattle.bl_definite.specs.Search.{Answers, AreEarly, IsClean, IsPlace};

use crate::early::is_early;
use crate::facts::Fact;
use crate::place::Place;
use crate::search::{Search, lacks};
use bl_base::NoMemory;
use bl_program::{Command, Operand};

/// Whether the command at the position lacks a fact that it needs.
pub(crate) fn needs_lacking(
    place: &Place,
    search: &mut Search,
    early: &[bool],
    command: Command,
    position: usize,
) -> Result<bool, NoMemory>
    requires place { IsPlace place.now }
    requires holds { Holds place.now.parts.now place.now.function position }
    requires clean { IsClean place.now.parts.now search.old }
    requires early { AreEarly place.now.parts.now place.now.function position early.now }
    ensures { IfOk result (λ answer. Answers place.now.parts.now (Needs place.now.parts.now place.now.function command) position answer search.new) }
{
    match command {
        Command::Set { a, b, c, .. } => lacks_any(place, search, early, a, b, c, position),
        Command::Load { address, .. } => lacks_operand(place, search, early, address, position),
        Command::Store { address, value, .. } => {
            lacks_either(place, search, early, address, value, position)
        }
        Command::Test { cond, .. } => lacks_operand(place, search, early, cond, position),
        Command::Arg { value, .. } => lacks_operand(place, search, early, value, position),
        Command::Out { value, .. } => lacks_operand(place, search, early, value, position),
        Command::Call { function } => lacks_argument(place, search, function, position),
        Command::Ret => lacks_result(place, search, position),
        Command::Jump { .. } => Ok(false),
        Command::Trap { .. } => Ok(false),
    }
}

/// Whether a value of a parameter of that function is lacking at the position.
fn lacks_argument(
    place: &Place,
    search: &mut Search,
    function: u32,
    position: usize,
) -> Result<bool, NoMemory>
    requires place { IsPlace place.now }
    requires holds { Holds place.now.parts.now place.now.function position }
    requires clean { IsClean place.now.parts.now search.old }
    ensures { IfOk result (λ answer. Answers place.now.parts.now (IsArgument place.now.parts.now function) position answer search.new) }
{
    for index in 0..place.params_of(function as usize) {
        let fact = Fact::Argument { function, index };
        if lacks(place, search, fact, position)? {
            return Ok(true);
        }
    }
    Ok(false)
}

/// Whether a value of a result of the function is lacking at the position.
fn lacks_result(place: &Place, search: &mut Search, position: usize) -> Result<bool, NoMemory>
    requires place { IsPlace place.now }
    requires holds { Holds place.now.parts.now place.now.function position }
    requires clean { IsClean place.now.parts.now search.old }
    ensures { IfOk result (λ answer. Answers place.now.parts.now (IsGiven place.now.parts.now place.now.function) position answer search.new) }
{
    for index in 0..place.results_of(place.function) {
        if lacks(place, search, Fact::Given(index), position)? {
            return Ok(true);
        }
    }
    Ok(false)
}

/// Whether one of three operands is a variable that isn't written before the position.
fn lacks_any(
    place: &Place,
    search: &mut Search,
    early: &[bool],
    a: Operand,
    b: Operand,
    c: Operand,
    position: usize,
) -> Result<bool, NoMemory>
    requires place { IsPlace place.now }
    requires holds { Holds place.now.parts.now place.now.function position }
    requires clean { IsClean place.now.parts.now search.old }
    requires early { AreEarly place.now.parts.now place.now.function position early.now }
    ensures { IfOk result (λ answer. Answers place.now.parts.now (Reads place.now.parts.now place.now.function (a ∷ b ∷ c ∷ [])) position answer search.new) }
{
    if lacks_operand(place, search, early, a, position)? {
        return Ok(true);
    }
    lacks_either(place, search, early, b, c, position)
}

/// Whether one of two operands is a variable that isn't written before the position.
fn lacks_either(
    place: &Place,
    search: &mut Search,
    early: &[bool],
    a: Operand,
    b: Operand,
    position: usize,
) -> Result<bool, NoMemory>
    requires place { IsPlace place.now }
    requires holds { Holds place.now.parts.now place.now.function position }
    requires clean { IsClean place.now.parts.now search.old }
    requires early { AreEarly place.now.parts.now place.now.function position early.now }
    ensures { IfOk result (λ answer. Answers place.now.parts.now (Reads place.now.parts.now place.now.function (a ∷ b ∷ [])) position answer search.new) }
{
    if lacks_operand(place, search, early, a, position)? {
        return Ok(true);
    }
    lacks_operand(place, search, early, b, position)
}

/// Whether the operand is a variable that isn't written before the position.
fn lacks_operand(
    place: &Place,
    search: &mut Search,
    early: &[bool],
    operand: Operand,
    position: usize,
) -> Result<bool, NoMemory>
    requires place { IsPlace place.now }
    requires holds { Holds place.now.parts.now place.now.function position }
    requires clean { IsClean place.now.parts.now search.old }
    requires early { AreEarly place.now.parts.now place.now.function position early.now }
    ensures { IfOk result (λ answer. Answers place.now.parts.now (Reads place.now.parts.now place.now.function (operand ∷ [])) position answer search.new) }
{
    match operand {
        Operand::Var(x) => lacks_variable(place, search, early, x.0, position),
        Operand::Const(_) => Ok(false),
    }
}

/// Whether the variable isn't written before the position.
fn lacks_variable(
    place: &Place,
    search: &mut Search,
    early: &[bool],
    x: u32,
    position: usize,
) -> Result<bool, NoMemory>
    requires place { IsPlace place.now }
    requires holds { Holds place.now.parts.now place.now.function position }
    requires clean { IsClean place.now.parts.now search.old }
    requires early { AreEarly place.now.parts.now place.now.function position early.now }
    ensures { IfOk result (λ answer. Answers place.now.parts.now (Reads place.now.parts.now place.now.function (variable x ∷ [])) position answer search.new) }
{
    match place.owner_of(x) {
        Some(owner) => lacks_owned(place, search, early, x, owner, position),
        None => Ok(false),
    }
}

/// The same for a variable of a function.
fn lacks_owned(
    place: &Place,
    search: &mut Search,
    early: &[bool],
    x: u32,
    owner: usize,
    position: usize,
) -> Result<bool, NoMemory>
    requires place { IsPlace place.now }
    requires holds { Holds place.now.parts.now place.now.function position }
    requires clean { IsClean place.now.parts.now search.old }
    requires early { AreEarly place.now.parts.now place.now.function position early.now }
    requires exists { owner < length place.now.parts.now.functions }
    requires owned { IsOwn place.now.parts.now owner x }
    ensures { IfOk result (λ answer. Answers place.now.parts.now (Reads place.now.parts.now place.now.function (variable x ∷ [])) position answer search.new) }
{
    if place.is_result_of(owner, x) {
        return lacks(place, search, Fact::Returned(owner), position);
    }
    if owner != place.function {
        return Ok(false);
    }
    if place.is_known(Fact::Own(x)) {
        return Ok(false);
    }
    if is_early(place, early, x) {
        return Ok(false);
    }
    lacks(place, search, Fact::Own(x), position)
}
