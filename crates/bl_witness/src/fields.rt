//! Objects that are read for what they are for a certificate, by their members.
ghost use Rattle.std.specs.Prelude.{◌≡◌, ◌<◌, Err, IfOk, List as Listed, None, OnOk, Option, length, refl, ℕ};
ghost use Rattle.serde_json.specs.Data.{Data, Members, no_members, object, put};
ghost use Rattle.serde_json.specs.Find.{as_object};
ghost use Rattle.bl_witness.specs.Fields.{IsCertificateMembers, IsPathMembers, certificate_from, path_from, with_certificate_member, with_path_member};
ghost use Rattle.bl_witness.specs.Shapes.{certificate_of, path_of};
ghost use Rattle.bl_witness.specs.Taken.{LacksMembers, LacksValue, TakesMembers, TakesValue};

use crate::fault::Fault;
use crate::pass::{pass, pass_rest};
use crate::scan::Shape;
use bl_base::{List, Pos};
use bl_graph::{Certificate, FlowPath};
use json::{Reader, Token};
use std::alloc::Global;

/// The last value of each of an object's keys, as that field, and whether there were other keys.
pub(crate) trait Fields: Drop {
    /// What they make.
    type Whole: Drop;

    /// They are those of an object with these members.
    ghost are: { Members → Self → Type 0 };

    /// They are these, once a member is read.
    ghost with: { Listed ℕ → Data → Self → Self };

    /// They make this.
    ghost made: { Self → Option Self.Whole };

    /// What a value is.
    ghost shape: { Data → Option Self.Whole };

    /// Those of no member. They stay those of an object as its members are read, and make what it is.
    fn new() -> Self
        ensures none { are no_members result }
        ensures more { (key : Listed ℕ) (d : Data) (ms : Members) (fields : Self) → are ms fields → are (put key d ms) (with key d fields) }
        ensures whole { (ms : Members) (fields : Self) → are ms fields → made fields ≡ shape (object ms) };

    /// Reads the member of a key.
    fn read_member(
        &mut self,
        alloc: Global,
        reader: &mut Reader<'_>,
        depth: usize,
        key: &str,
    ) -> Result<(), Fault>
        ensures ok { IfOk result (λ _. (d : Data) × TakesValue depth reader.old d reader.new × (self.new ≡ with key.now d self.old)) }
        ensures shorter { OnOk result (length reader.new < length reader.old) }
        ensures err { result ≡ Err Fault.NotJson → LacksValue depth reader.old };

    /// What they make, where all are there and no other key is.
    fn into_whole(self) -> Option<Self::Whole>
        ensures { result ≡ made self };

    ghost of_objects: { (d : Data) → as_object d ≡ None → shape d ≡ None };
}

/// What the next value is by its fields.
pub(crate) fn read_object<F: Fields>(
    alloc: Global,
    reader: &mut Reader<'_>,
    depth: usize,
) -> Result<Option<F::Whole>, Fault>
    ensures ok { IfOk result (λ found. (d : Data) × TakesValue depth reader.old d reader.new × (found ≡ F.shape d)) }
    ensures shorter { OnOk result (length reader.new < length reader.old) }
    ensures err { result ≡ Err Fault.NotJson → LacksValue depth reader.old }
{
    let token = reader.next().ok_or(Fault::NotJson)?;
    match token {
        Token::BeginObject if depth > 0 => {
            let fields = read_members::<F>(alloc, reader, depth - 1)?;
            Ok(fields.into_whole())
        }
        _ => {
            pass_rest(reader, token, depth)?;
            Ok(None)
        }
    }
}

/// An object's fields. Takes the object's end too.
fn read_members<F: Fields>(alloc: Global, reader: &mut Reader<'_>, depth: usize) -> Result<F, Fault>
    ensures ok { IfOk result (λ fields. (ms : Members) × TakesMembers depth reader.old ms reader.new × (F.made fields ≡ F.shape (object ms))) }
    ensures shorter { OnOk result (length reader.new < length reader.old) }
    ensures err { result ≡ Err Fault.NotJson → LacksMembers depth reader.old }
{
    let mut fields = F::new();
    'members: while let Some(key) = reader.next_key()? {
        fields.read_member(alloc, reader, depth, key)?;
    }
    Ok(fields)
}

/// A path's fields.
#[derive(Debug, Drop)]
pub(crate) struct PathFields {
    pub(crate) amount: Option<u64>,
    pub(crate) sink: Option<Pos>,
    pub(crate) sites: Option<List<Pos>>,
    pub(crate) others: bool,
}

impl Fields for PathFields {
    type Whole = FlowPath;

    ghost are = { IsPathMembers };

    ghost with = { with_path_member };

    ghost made = { path_from };

    ghost shape = { path_of };

    fn new() -> PathFields {
        PathFields {
            amount: None,
            sink: None,
            sites: None,
            others: false,
        }
    }

    fn read_member(
        &mut self,
        alloc: Global,
        reader: &mut Reader<'_>,
        depth: usize,
        key: &str,
    ) -> Result<(), Fault> {
        if key == "amount" {
            self.amount = u64::read(alloc, reader, depth)?;
        } else if key == "sink" {
            self.sink = Pos::read(alloc, reader, depth)?;
        } else if key == "sites" {
            self.sites = List::<Pos>::read(alloc, reader, depth)?;
        } else {
            pass(reader, depth)?;
            self.others = true;
        }
        Ok(())
    }

    fn into_whole(self) -> Option<FlowPath> {
        if self.others {
            return None;
        }
        let amount = self.amount?;
        let sink = self.sink?;
        let sites = self.sites?;
        Some(FlowPath {
            sites,
            sink,
            amount,
        })
    }

    ghost of_objects = { λ d none. rw none refl };
}

impl Shape for FlowPath {
    ghost shape = { path_of };

    fn read(
        alloc: Global,
        reader: &mut Reader<'_>,
        depth: usize,
    ) -> Result<Option<FlowPath>, Fault> {
        read_object::<PathFields>(alloc, reader, depth)
    }
}

/// A certificate's fields.
#[derive(Debug, Drop)]
pub(crate) struct CertificateFields {
    pub(crate) paths: Option<List<FlowPath>>,
    pub(crate) weight: Option<u64>,
    pub(crate) others: bool,
}

impl Fields for CertificateFields {
    type Whole = Certificate;

    ghost are = { IsCertificateMembers };

    ghost with = { with_certificate_member };

    ghost made = { certificate_from };

    ghost shape = { certificate_of };

    fn new() -> CertificateFields {
        CertificateFields {
            paths: None,
            weight: None,
            others: false,
        }
    }

    fn read_member(
        &mut self,
        alloc: Global,
        reader: &mut Reader<'_>,
        depth: usize,
        key: &str,
    ) -> Result<(), Fault> {
        if key == "paths" {
            self.paths = List::<FlowPath>::read(alloc, reader, depth)?;
        } else if key == "weight" {
            self.weight = u64::read(alloc, reader, depth)?;
        } else {
            pass(reader, depth)?;
            self.others = true;
        }
        Ok(())
    }

    fn into_whole(self) -> Option<Certificate> {
        if self.others {
            return None;
        }
        let weight = self.weight?;
        let paths = self.paths?;
        Some(Certificate { paths, weight })
    }

    ghost of_objects = { λ d none. rw none refl };
}
