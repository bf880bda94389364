//! Laws of users that are linked over a stub, and over the library that it stands for. Each function is its contract alone.
ghost use Rattle.std.specs.Prelude.{◌≡◌, ◌++◌, ℕ, List as Listed, Ok};
ghost use Rattle.std.specs.List.{All};
ghost use Rattle.bl_base.specs.{Runs.Outcome, declared.start.Start.Start};
ghost use Rattle.bl_wasm.specs.{Linked.IsLinked, declared.linked.Tree.Tree};
ghost use Rattle.bl_reduce.specs.Outcomes.{IsStart, source};
ghost use Rattle.bl_link.specs.{Linkable.AreParts, Linkable.IsSound, Links.links, declared.part.Part.Part};
ghost use Rattle.bl_iface.specs.declared.iface.Iface.{Iface};
ghost use Rattle.bl_rename.specs.Renamings.{Alike, Renames, start_by};
ghost use Rattle.bl_whole.specs.JoinedTree.{client_numbers, joined_tree};
ghost use Rattle.bl_apart.specs.Beside.{AreBeside};
ghost use Rattle.bl_apart.specs.BesideStores.{Agree, AreGiven, Exports, IsOffered, Setting};
ghost use Rattle.bl_apart.specs.LinkedApart.{AreLinked, AreUsers, HasOrigin, IsExported, IsOwn, whole_numbers};

/// The same parts linked behind two others stand beside one another: where all that they import is known behind both, and means the same there.
pub fn the_same_is_linked_beside()
    ensures { (s : Setting) (stubs libraries users : Listed Part) (client whole : Tree) → Agree s → All IsSound users → AreGiven s stubs libraries users
        → links (stubs ++ users) ≡ Ok client → links (libraries ++ users) ≡ Ok whole → AreBeside s.ours s.theirs s.stub client s.library whole }
{}

/// What users import is known behind both where it is other users' or functions that both trees export by that name.
pub fn what_is_offered_is_given()
    ensures { (s : Setting) (stubs libraries users : Listed Part) → AreParts (stubs ++ users) → AreParts (libraries ++ users) → All IsSound stubs → All IsSound libraries
        → AreParts stubs → AreParts libraries → links stubs ≡ Ok s.stub → links libraries ≡ Ok s.library → All (λ user. All (IsOffered s users) user.wasm.imports) users
        → AreGiven s stubs libraries users }
{}

/// Where users stand beside a stub as they stand beside a library, the joined tree renames the whole one.
pub fn linked_apart_is_joined()
    ensures { (iface : Iface) (stub client library whole : Tree) → IsLinked library
        → AreBeside (client_numbers iface client library) (whole_numbers stub client library) stub client library whole
        → Renames (whole_numbers stub client library) whole (joined_tree client library iface) }
{}

/// Users that were linked over stubs, joined with the library: the joined tree renames the tree that linking them over the library gives.
pub fn joining_is_linking()
    ensures { (iface : Iface) (stubs libraries users : Listed Part) (stub library client whole : Tree)
        → AreLinked stubs libraries users stub library client whole → AreUsers iface stub client library users
        → Renames (whole_numbers stub client library) whole (joined_tree client library iface) }
{}

/// And so the two end alike, whichever of them ends, after as many steps: the same values or the same trap, and the same memories.
pub fn joined_users_run_as_linked()
    ensures forward { (iface : Iface) (stubs libraries users : Listed Part) (stub library client whole : Tree) (function : ℕ) (start : Start) (n : ℕ) (o : Outcome)
        → AreLinked stubs libraries users stub library client whole → AreUsers iface stub client library users
        → source whole function start n o
        → (p : Outcome) × source (joined_tree client library iface) ((whole_numbers stub client library).names.function function) (start_by (whole_numbers stub client library) start) n p
        × Alike (whole_numbers stub client library) o p }
    ensures backward { (iface : Iface) (stubs libraries users : Listed Part) (stub library client whole : Tree) (function : ℕ) (start : Start) (n : ℕ) (p : Outcome)
        → AreLinked stubs libraries users stub library client whole → AreUsers iface stub client library users
        → IsStart whole function start
        → source (joined_tree client library iface) ((whole_numbers stub client library).names.function function) (start_by (whole_numbers stub client library) start) n p
        → (o : Outcome) × source whole function start n o × Alike (whole_numbers stub client library) o p }
{}

/// What the whole tree exports under a name, the joined tree exports under it too, at the number there: where the library exports all that the interface
/// names, and no user exports a function of the stub's under that name.
pub fn exports_are_kept()
    ensures { (iface : Iface) (stubs libraries users : Listed Part) (stub library client whole : Tree) (name : Listed ℕ) (function : ℕ)
        → AreLinked stubs libraries users stub library client whole → AreUsers iface stub client library users
        → All (IsExported library) iface.functions → IsOwn stub client name
        → Exports whole name function → Exports (joined_tree client library iface) name ((whole_numbers stub client library).names.function function) }
{}

/// And the joined tree exports nothing else, but for functions of the stub's under names that the interface doesn't have.
pub fn nothing_else_is_exported()
    ensures { (iface : Iface) (stubs libraries users : Listed Part) (stub library client whole : Tree) (name : Listed ℕ) (number : ℕ)
        → AreLinked stubs libraries users stub library client whole → AreUsers iface stub client library users
        → Exports (joined_tree client library iface) name number → HasOrigin iface stub whole name number }
{}
