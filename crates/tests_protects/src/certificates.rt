//! Certificates that break a rule, and texts that are none. Which rule is broken first was worked by hand from the rules of certificates in FORMATS;
//! `formats/read.py`, which was written from that page alone, answers the same.
use crate::images::{DOUBLED, LOADS, SUM};
use crate::least::{certificate_of, program_of, verdict};
use bl_base::{NoMemory, Pos, SiteSet};
use bl_cut::protect;
use bl_program::WellFormed;
use bl_witness::{CertError, CertVerdict, from_json};
use std::alloc::Global;
use std::test::Fail;

/// The set of those positions.
pub(crate) fn sites_of(alloc: Global, positions: &[u32]) -> Result<SiteSet, NoMemory> {
    let mut sites = SiteSet::new(alloc);
    for position in positions {
        sites.insert(Pos(*position))?;
    }
    Ok(sites)
}

/// The program that the bytes are the image of, with protects at those positions.
fn protected(alloc: Global, image: &[u8], protects: &[u32]) -> Result<WellFormed, NoMemory> {
    let sites = sites_of(alloc, protects)?;
    let program = program_of(alloc, image)?;
    Ok(protect(program, &sites))
}

/// The verdict on a certificate's text for an image whose protects are those.
fn verdict_on(
    alloc: Global,
    image: &[u8],
    protects: &[u32],
    text: &str,
) -> Result<CertVerdict, NoMemory> {
    let program = protected(alloc, image, protects)?;
    verdict(alloc, &program, text.as_bytes())
}

/// Whether the first broken rule is that one, at that index.
fn breaks(
    alloc: Global,
    image: &[u8],
    protects: &[u32],
    text: &str,
    broken: (u8, u64),
) -> Result<bool, NoMemory> {
    let (rule, index) = broken;
    Ok(verdict_on(alloc, image, protects, text)? == CertVerdict::No { rule, index })
}

/// The certificate of the protect at 11.
const CERTIFICATE: &str = "{\"paths\":[{\"amount\":1,\"sink\":14,\"sites\":[11]}],\"weight\":1}";

#[test]
fn one_certificate_of_the_loads_is_lawful(rt: HostRuntime) -> Result<(), Fail> {
    assert_eq!(rt;
        verdict_on(rt.alloc(), LOADS, &[11], CERTIFICATE)?,
        CertVerdict::Yes
    );
    Ok(())
}

/// Protects of the program of loads, a certificate's text, and the rule that it breaks first, at an index.
static BROKEN: [(&[u32], &str, (u8, u64)); 7] = [
    // not a load
    (
        &[11],
        "{\"paths\":[{\"amount\":1,\"sink\":13,\"sites\":[12]}],\"weight\":1}",
        (1, 0),
    ),
    // no site
    (
        &[11],
        "{\"paths\":[{\"amount\":1,\"sink\":14,\"sites\":[]}],\"weight\":1}",
        (1, 0),
    ),
    // another sink
    (
        &[11],
        "{\"paths\":[{\"amount\":1,\"sink\":10,\"sites\":[11]}],\"weight\":1}",
        (1, 0),
    ),
    // no amount
    (
        &[11],
        "{\"paths\":[{\"amount\":0,\"sink\":14,\"sites\":[11]}],\"weight\":1}",
        (2, 0),
    ),
    (&[], CERTIFICATE, (3, 0)),
    // twice the weight
    (
        &[11],
        "{\"paths\":[{\"amount\":2,\"sink\":14,\"sites\":[11]}],\"weight\":1}",
        (4, 11),
    ),
    (&[11], "{\"paths\":[],\"weight\":0}", (5, 0)),
];

/// How many of them break that rule, before the first that doesn't.
fn named_rightly(alloc: Global) -> Result<u32, NoMemory> {
    let mut passed = 0u32;
    for (protects, text, broken) in &BROKEN {
        if !breaks(alloc, LOADS, protects, text, *broken)? {
            break;
        }
        passed = passed.wrapping_add(1);
    }
    Ok(passed)
}

#[test]
fn the_first_broken_rule_is_named(rt: HostRuntime) -> Result<(), Fail> {
    assert_eq!(rt; named_rightly(rt.alloc())?, 7);
    Ok(())
}

#[test]
fn two_paths_through_one_sum_are_too_many(rt: HostRuntime) -> Result<(), Fail> {
    let paths =
        "{\"paths\":[{\"amount\":1,\"sink\":19,\"sites\":[11,16]},{\"amount\":1,\"sink\":19,\"sites\":[15,16]}],\"weight\":2}";
    assert!(rt; breaks(rt.alloc(), SUM, &[11, 15], paths, (4, 16))?);
    Ok(())
}

#[test]
fn two_protects_on_a_path_are_one_too_many(rt: HostRuntime) -> Result<(), Fail> {
    let path = "{\"paths\":[{\"amount\":1,\"sink\":19,\"sites\":[11,16]}],\"weight\":1}";
    assert!(rt; breaks(rt.alloc(), SUM, &[11, 16], path, (3, 0))?);
    Ok(())
}

#[test]
fn each_place_of_a_path_counts(rt: HostRuntime) -> Result<(), Fail> {
    let path = "{\"paths\":[{\"amount\":6,\"sink\":13,\"sites\":[10,11,12,12]}],\"weight\":6}";
    assert!(rt; breaks(rt.alloc(), DOUBLED, &[10], path, (4, 12))?);
    Ok(())
}

/// Whether the text is answered with that error.
fn fails(alloc: Global, text: &str, error: CertError) -> bool {
    matches!(&from_json(alloc, text.as_bytes()), Err(other) if *other == error)
}

/// Texts that are no certificates, and what is answered.
static NO_CERTIFICATES: [(&str, CertError); 26] = [
    ("", CertError::NotJson),
    ("{", CertError::NotJson),
    ("{\"paths\":[],\"weight\":01}", CertError::NotJson),
    ("{\"paths\":[],\"weight\":0} 0", CertError::NotJson),
    ("{\"paths\":[],\"weight\":0]", CertError::NotJson),
    ("{\"paths\":[],\"weight\":0,}", CertError::NotJson),
    ("{\"paths\":[{\"\":0},{\"\":0},", CertError::NotJson),
    ("{\"paths\":[],\"weight\":1e999}", CertError::NotJson),
    ("{\"more\":[{\"\":-1e999}]}", CertError::NotJson),
    ("{\"more\":\"\\ud800\"}", CertError::NotJson),
    ("{}", CertError::Shape),
    ("[]", CertError::Shape),
    ("0", CertError::Shape),
    ("{\"paths\":[],\"weight\":1.0}", CertError::Shape),
    ("{\"paths\":[],\"weight\":1e2}", CertError::Shape),
    ("{\"paths\":[],\"weight\":-0}", CertError::Shape),
    (
        "{\"paths\":[],\"weight\":18446744073709551616}",
        CertError::Shape,
    ),
    ("{\"paths\":[],\"weight\":0,\"more\":0}", CertError::Shape),
    ("{\"paths\":{},\"weight\":0}", CertError::Shape),
    ("{\"paths\":[[],null],\"weight\":0}", CertError::Shape),
    (
        "{\"paths\":[{\"\":0},{\"\":0}],\"weight\":0}",
        CertError::Shape,
    ),
    (
        "{\"paths\":[{\"amount\":1,\"sink\":1}],\"weight\":1}",
        CertError::Shape,
    ),
    (
        "{\"paths\":[{\"amount\":1,\"sink\":1,\"sites\":[1],\"\":[1]}],\"weight\":1}",
        CertError::Shape,
    ),
    (
        "{\"paths\":[{\"amount\":1,\"sink\":1,\"sites\":[1,-1]}],\"weight\":1}",
        CertError::Shape,
    ),
    (
        "{\"paths\":[{\"amount\":1,\"sink\":1,\"sites\":[4294967296]}],\"weight\":1}",
        CertError::Shape,
    ),
    (
        "{\"paths\":[{\"amount\":1,\"sink\":4294967296,\"sites\":[]}],\"weight\":1}",
        CertError::Shape,
    ),
];

/// How many of them are answered so, before the first that isn't.
fn refused_rightly(alloc: Global) -> u32 {
    let mut passed = 0u32;
    for (text, error) in &NO_CERTIFICATES {
        if !fails(alloc, text, *error) {
            break;
        }
        passed = passed.wrapping_add(1);
    }
    passed
}

#[test]
fn a_text_that_is_no_certificate(rt: HostRuntime) -> Result<(), Fail> {
    assert_eq!(rt; refused_rightly(rt.alloc()), 26);
    Ok(())
}

/// The weight that a certificate's text says.
fn weight_in(alloc: Global, text: &str) -> Result<u64, NoMemory> {
    Ok(certificate_of(alloc, text.as_bytes())?.weight)
}

#[test]
fn of_a_key_that_stands_twice_the_last_counts(rt: HostRuntime) -> Result<(), Fail> {
    let text = " {\"weight\":\"x\", \"paths\":[], \"\\u0077eight\":9} ";
    assert_eq!(rt; weight_in(rt.alloc(), text)?, 9);
    Ok(())
}

#[test]
fn of_a_paths_key_that_stands_twice_the_last_counts(rt: HostRuntime) -> Result<(), Fail> {
    let text =
        "{\"paths\":[{\"\":0}],\"weight\":{},\"paths\":[{\"sites\":[1,1.5],\"sink\":[],\"amount\":0,\"sink\":14,\"amount\":1,\"sites\":[11]}],\"weight\":1}";
    assert_eq!(rt;
        verdict_on(rt.alloc(), LOADS, &[11], text)?,
        CertVerdict::Yes
    );
    Ok(())
}
