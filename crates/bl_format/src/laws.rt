//! The law that programs have images. The function is its contract alone.
ghost use Rattle.std.specs.Prelude.{ℕ, List};
ghost use Rattle.bl_base.specs.Fits.{AreBytes};
ghost use Rattle.bl_program.specs.{declared.definitions.ProgramParts.ProgramParts, Programs.IsProgram, Rules.IsWellFormed};
ghost use Rattle.bl_program.specs.Widths.{HasByteWidths, HasWidths};
ghost use Rattle.bl_format.specs.Image.{Image};

/// Each well-formed program whose numbers are of their widths has an image. Where its rows and names are of bytes, so is the image.
pub fn programs_have_images()
    ensures { (program : ProgramParts) → IsProgram program → IsWellFormed program → HasWidths program
        → (bytes : List ℕ) × Image program bytes × (HasByteWidths program → AreBytes bytes) }
{}
