//! Laws of images. Each function is its contract alone.
ghost use Rattle.std.specs.Prelude.{◌≡◌, ℕ, List, [], ◌++◌};
ghost use Rattle.bl_program.specs.declared.definitions.ProgramParts.{ProgramParts};
ghost use Rattle.bl_format.specs.Image.{Image};

/// Bytes are the image of at most one program.
pub fn one_program()
    ensures { (program other : ProgramParts) (bytes : List ℕ) → Image program bytes → Image other bytes → program ≡ other }
{}

/// A program has at most one image.
pub fn one_image()
    ensures { (program : ProgramParts) (bytes other : List ℕ) → Image program bytes → Image program other → bytes ≡ other }
{}

/// Images are prefix-free: where one image is a prefix of another, nothing stands behind it.
pub fn no_prefix()
    ensures { (program other : ProgramParts) (bytes rest : List ℕ) → Image program bytes → Image other (bytes ++ rest) → rest ≡ [] }
{}
