//! The contents of so many files, each by itself.
ghost use Rattle.std.specs.Prelude.{◌≡◌, ◌≤◌, ◌+◌, ◌∷◌, ◌++◌, [], length};
ghost use Rattle.bl_job.specs.WorkAnswers.{content_in, contents_in};

use crate::content::Content;

/// Those of the first file, and those of all others.
pub fn first_file(contents: Vec<Content>) -> (Content, Vec<Content>)
    requires { 1 ≤ length contents.items }
    ensures { contents_in contents.items ≡ content_in result.0 ∷ contents_in result.1.items }
{
    let mut others = contents;
    let first = others.remove(0);
    (first, others)
}

/// Those of all files but the last one, and those of that.
pub fn last_file(contents: Vec<Content>) -> (Vec<Content>, Content)
    requires { 1 ≤ length contents.items }
    ensures { contents_in contents.items ≡ contents_in result.0.items ++ content_in result.1 ∷ [] }
{
    let mut others = contents;
    let Some(last) = others.pop() else {
        unreachable!()
    };
    (others, last)
}

/// The bytes of the first file, and the contents of all others.
fn split_first(contents: &[Content]) -> (&[u8], &[Content])
    requires { 1 ≤ length contents.now }
    ensures are { contents_in contents.now ≡ result.0.now ∷ contents_in result.1.now }
    ensures others { length contents.now ≡ length result.1.now + 1 }
{
    let [first, others @ ..] = contents else {
        unreachable!()
    };
    (first.bytes(), others)
}

/// Those of one file.
fn one_file(contents: &[Content]) -> &[u8]
    requires { length contents.now ≡ 1 }
    ensures { contents_in contents.now ≡ result.now ∷ [] }
{
    let [only] = contents else { unreachable!() };
    only.bytes()
}

/// Those of two files.
pub fn two_files(contents: &[Content]) -> (&[u8], &[u8])
    requires { length contents.now ≡ 2 }
    ensures { contents_in contents.now ≡ result.0.now ∷ result.1.now ∷ [] }
{
    let (first, others) = split_first(contents);
    (first, one_file(others))
}

/// Those of three files.
pub fn three_files(contents: &[Content]) -> (&[u8], &[u8], &[u8])
    requires { length contents.now ≡ 3 }
    ensures { contents_in contents.now ≡ result.0.now ∷ result.1.now ∷ result.2.now ∷ [] }
{
    let (first, others) = split_first(contents);
    let (second, third) = two_files(others);
    (first, second, third)
}

/// Those of four files.
pub fn four_files(contents: &[Content]) -> (&[u8], &[u8], &[u8], &[u8])
    requires { length contents.now ≡ 4 }
    ensures { contents_in contents.now ≡ result.0.now ∷ result.1.now ∷ result.2.now ∷ result.3.now ∷ [] }
{
    let (first, others) = split_first(contents);
    let (second, third, fourth) = three_files(others);
    (first, second, third, fourth)
}
