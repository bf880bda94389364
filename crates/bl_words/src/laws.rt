//! Laws of the definitions. Each function is its contract alone.
ghost use Rattle.std.specs.Prelude.{◌≡◌, ◌↔◌, ℕ, List as Listed, Some};
ghost use Rattle.bl_text.specs.Names.{AreNamedApart};
ghost use Rattle.bl_words.specs.Requests.{AreInRange, AreDriveStepsInRange, GenRequest, InterpRequest, IsGenInRange, IsTakenApart, Parts, PredictRequest, Request, RunRequest, gen, interp, modules_in, parts_of, predict, request_of, run};

/// The words behind a command have those parts exactly where the rules take them apart so.
#[tactic(auto, using(crate::proofs::WordsLemmas::taken_apart, crate::proofs::WordsLemmas::parts_found))]
pub fn words_are_taken_apart()
    ensures { (words : Listed (Listed ℕ)) (parts : Parts) → (parts_of words ≡ Some parts) ↔ IsTakenApart words parts }
{}

/// The seed of a `gen` is below 2^64, and its size is from 1 to the most functions of a module.
pub fn gen_in_range()
    ensures { (words : Listed (Listed ℕ)) (request : GenRequest) → request_of words ≡ Some (gen request) → IsGenInRange request }
{}

/// The steps of an `interp` and of a `run` are from 1 to 4,294,967,295, and those of a `predict` from 1 to as many as a trace file may have
/// lines.
pub fn steps_in_range()
    ensures interp { (words : Listed (Listed ℕ)) (request : InterpRequest) → request_of words ≡ Some (interp request) → AreInRange request.steps }
    ensures run { (words : Listed (Listed ℕ)) (request : RunRequest) → request_of words ≡ Some (run request) → AreInRange request.steps }
    ensures predict { (words : Listed (Listed ℕ)) (request : PredictRequest) → request_of words ≡ Some (predict request) → AreDriveStepsInRange request.steps }
{}

/// No two modules of a request have one name.
#[tactic(auto, using(crate::proofs::WordsLemmas::names_apart))]
pub fn modules_are_named_apart()
    ensures { (words : Listed (Listed ℕ)) (request : Request) → request_of words ≡ Some request → AreNamedApart (modules_in request) }
{}
