//! Laws of the grammar and of typings. Each function is its contract alone.
ghost use Rattle.std.specs.Prelude.{◌≡◌, ◌↔◌, ◌++◌, ℕ, ◌≤◌, true, List, [], ◌∷◌, length, map, slice_get, Some};
ghost use Rattle.bl_wasm.specs.{Instructions.Nests, Reached.is_reached, Sequences.IsConstruct, Sequences.Sequence, TypedPlaces.IsOpenAt};
ghost use Rattle.bl_wasm.specs.OpenConstructs.{Closes, else_part, of_block, of_loop, open_through, then_part};
ghost use Rattle.bl_wasm.specs.IndexMaps.{NameAlike, Names, renamed};
ghost use Rattle.bl_wasm.specs.Typing.{Context, IsTyping, Open, Spaces, Types, labels, placed};
ghost use Rattle.bl_wasm.specs.declared.instruction.Instr.TheVariants as instr;
ghost use Rattle.bl_wasm.specs.{declared.instruction.Instr.Instr, declared.types.BlockType.BlockType, declared.types.WasmType.WasmType};
ghost use Rattle.bl_wasm.specs.declared.types.WasmType.TheVariants as kind;

/// Items nest exactly where each may stand behind those before it, and where they close what they open: where nothing is open
/// behind them.
pub fn nesting_is_closing()
    ensures closing { (items : List Instr) → Nests items ↔ Closes [] items }
    ensures through { (items : List Instr) → Nests items ↔ open_through items [] ≡ Some [] }
{}

/// A body with a typing nests.
pub fn a_typed_body_nests()
    ensures { (c : Context) (body : List Instr) (places : List (List WasmType)) → IsTyping c body places → Nests body }
{}

/// At each place of a typed body the same constructs are open by nesting and by the typing, of the same kinds and types.
pub fn a_typing_has_open_what_is_open()
    ensures { (c : Context) (body : List Instr) (places : List (List WasmType)) → IsTyping c body places
        → (place : ℕ) → place ≤ length body → IsOpenAt c body places place }
{}

/// A body has a typing exactly where it is a sequence from no operands to the function's results (section 3.3.9).
pub fn a_typing_is_a_sequence()
    ensures { (c : Context) (body : List Instr)
        → ((places : List (List WasmType)) × IsTyping c body places) ↔ Sequence c (labels c []) body [] c.results }
{}

/// A sequence begins with a construct exactly where the construct's parts are sequences of their own, here by the ends of its
/// parts: of a block, a loop, an if without `else`, and an if with one (sections 3.3.8 and 3.3.9).
pub fn a_construct_is_its_parts()
    ensures blocks { (c : Context) (outer : List Open) (immediate : BlockType) (inside more : List Instr) (from to : List WasmType)
        → Nests inside → Nests more → Sequence c (labels c outer) (instr.Block immediate ∷ inside ++ instr.End ∷ more) from to
        ↔ IsConstruct c (labels c outer) of_block immediate [] (inside ∷ []) more from to }
    ensures loops { (c : Context) (outer : List Open) (immediate : BlockType) (inside more : List Instr) (from to : List WasmType)
        → Nests inside → Nests more → Sequence c (labels c outer) (instr.Loop immediate ∷ inside ++ instr.End ∷ more) from to
        ↔ IsConstruct c (labels c outer) of_loop immediate [] (inside ∷ []) more from to }
    ensures ifs { (c : Context) (outer : List Open) (immediate : BlockType) (inside more : List Instr) (from to : List WasmType)
        → Nests inside → Nests more → Sequence c (labels c outer) (instr.If immediate ∷ inside ++ instr.End ∷ more) from to
        ↔ IsConstruct c (labels c outer) then_part immediate (kind.I32 ∷ []) (inside ∷ []) more from to }
    ensures elses { (c : Context) (outer : List Open) (immediate : BlockType) (first second more : List Instr) (from to : List WasmType)
        → Nests first → Nests second → Nests more
        → Sequence c (labels c outer) (instr.If immediate ∷ first ++ instr.Else ∷ second ++ instr.End ∷ more) from to
        ↔ IsConstruct c (labels c outer) else_part immediate (kind.I32 ∷ []) (first ∷ second ∷ []) more from to }
{}

/// At a place that can be reached, all typings of a body agree.
pub fn typings_agree_where_reached()
    ensures { (c : Context) (body : List Instr) (one two : List (List WasmType)) → IsTyping c body one → IsTyping c body two
        → (place : ℕ) → is_reached body place ≡ true → slice_get one place ≡ slice_get two place }
{}

/// A typing is one of the renamed items too, where the new names name what the old ones do: of items inside constructs, and of
/// a body.
pub fn a_typing_carries_over()
    ensures items { (names : Names) (here there : Spaces) → NameAlike names here there
        → (locals results : List WasmType) (open_ones : List Open) (items : List Instr) (places : List (List WasmType))
        → Types (placed here locals results) open_ones items places
        → Types (placed there locals results) open_ones (map (renamed names) items) places }
    ensures bodies { (names : Names) (here there : Spaces) → NameAlike names here there
        → (locals results : List WasmType) (body : List Instr) (places : List (List WasmType))
        → IsTyping (placed here locals results) body places
        → IsTyping (placed there locals results) (map (renamed names) body) places }
{}
