//! Laws of linking. Each function is its contract alone.
ghost use Rattle.std.specs.Prelude.{◌≡◌, Err, List, Ok, length};
ghost use Rattle.std.specs.List.{All};
ghost use Rattle.bl_wasm.specs.{Linked.IsLinked, declared.linked.Tree.Tree};
ghost use Rattle.bl_link.specs.Linkable.{AreFew, AreParts, HasFewExports, IsSound};
ghost use Rattle.bl_link.specs.{Links.links, declared.error.LinkError.TheVariants.Memory, declared.part.Part.Part};

/// What is linked of valid parts within the limits can be run: each body has a typing in the tree, and what its parts name exists.
pub fn what_is_linked_can_run()
    ensures { (parts : List Part) (tree : Tree) → AreParts parts → All IsSound parts → links parts ≡ Ok tree → IsLinked tree }
{}

/// Want of memory is no fault of parts.
pub fn memory_is_no_fault()
    ensures { (parts : List Part) → links parts ≡ Err Memory → ⊥ }
{}

/// The tree of parts of short names, each with few exports of short names, has few exports, and their names are short.
pub fn exports_are_few()
    ensures { (parts : List Part) (tree : Tree) → All HasFewExports parts → links parts ≡ Ok tree → AreFew (length parts) tree.exports }
{}
