//! Modules that `oracles/validity.js` wrote by node v20.20's answers, by the parts that differ from those of a valid one.
use super::validate::{CONSTANT, Case, Change, FUNCTION, Parts, RULE};
use bl_validate::Invalid;
use bl_wasm::WasmType::{F32, F64, I32, I64};
use bl_wasm::{ExportKind, GlobalType, ImportKind, Limits};

/// A module with one function: it takes an i32, has a local of i64 and gives an i32. Function 0 and global 0, an immutable
/// i32, are imported; global 1 is a mutable i64; there is a table and a memory.
pub(super) static AROUND: Parts = Parts {
    types: &[
        (&[], &[]),
        (&[I32], &[I32]),
        (&[I32, I64], &[I64]),
        (&[], &[I32]),
        (&[I32, I64], &[I64, I32]),
        (&[], &[I32, I64]),
        (&[I32], &[]),
    ],
    imports: &[FUNCTION, CONSTANT],
    functions: &[1],
    tables: &[(1, None)],
    memories: &[(1, None)],
    globals: &[(I64, true, &[0x42, 0x00])],
    exports: &[],
    start: None,
    elements: &[],
    segments: &[],
    locals: &[(1, I64)],
    bodies: &[&[0x20, 0x00]],
};

/// A module with one function alone, of no parameters, results and locals.
pub(super) static BARE: Parts = Parts {
    types: &[(&[], &[])],
    imports: &[],
    functions: &[0],
    tables: &[],
    memories: &[],
    globals: &[],
    exports: &[],
    start: None,
    elements: &[],
    segments: &[],
    locals: &[],
    bodies: &[&[]],
};

/// Types and functions.
pub(super) static TYPES: [Case; 26] = [
    // as it is
    (&[], None),
    // an f32 parameter
    (
        &[Change::Types(&[(&[], &[]), (&[I32], &[I32]), (&[F32], &[])])],
        RULE,
    ),
    // an f64 result
    (
        &[Change::Types(&[(&[], &[]), (&[I32], &[I32]), (&[], &[F64])])],
        RULE,
    ),
    // two results
    (
        &[Change::Types(&[(&[], &[]), (&[I32], &[I32]), (&[], &[I32, I32])])],
        None,
    ),
    // two results of the function
    (
        &[
            Change::Bare,
            Change::Types(&[(&[], &[I32, I32])]),
            Change::Bodies(&[&[0x41, 0x00, 0x41, 0x00]]),
        ],
        None,
    ),
    // one of two results
    (
        &[
            Change::Bare,
            Change::Types(&[(&[], &[I32, I32])]),
            Change::Bodies(&[&[0x41, 0x00]]),
        ],
        Some(Invalid::Function(0)),
    ),
    // two results by return
    (
        &[
            Change::Bare,
            Change::Types(&[(&[], &[I32, I64])]),
            Change::Bodies(&[&[0x41, 0x00, 0x42, 0x00, 0x0F]]),
        ],
        None,
    ),
    // two results by return in another order
    (
        &[
            Change::Bare,
            Change::Types(&[(&[], &[I32, I64])]),
            Change::Bodies(&[&[0x42, 0x00, 0x41, 0x00, 0x0F]]),
        ],
        Some(Invalid::Function(0)),
    ),
    // two results by br
    (
        &[
            Change::Bare,
            Change::Types(&[(&[], &[I32, I64])]),
            Change::Bodies(&[&[0x41, 0x00, 0x42, 0x00, 0x0C, 0x00]]),
        ],
        None,
    ),
    // a call of two results
    (
        &[
            Change::Functions(&[1, 5]),
            Change::Bodies(&[&[0x10, 0x02, 0xA7, 0x6A], &[0x41, 0x00, 0x42, 0x00]]),
        ],
        None,
    ),
    // a call of two results that are used as one
    (
        &[
            Change::Functions(&[1, 5]),
            Change::Bodies(&[&[0x10, 0x02], &[0x41, 0x00, 0x42, 0x00]]),
        ],
        Some(Invalid::Function(1)),
    ),
    // a type of a block with floats
    (
        &[
            Change::Types(&[(&[], &[]), (&[I32], &[I32]), (&[F32], &[F32])]),
            Change::Bodies(&[&[0x00, 0x02, 0x02, 0x0B, 0x1A, 0x20, 0x00]]),
        ],
        RULE,
    ),
    // no types
    (
        &[
            Change::Types(&[]),
            Change::Imports(&[CONSTANT]),
            Change::Functions(&[]),
            Change::Bodies(&[]),
        ],
        None,
    ),
    // an import's type doesn't exist
    (
        &[Change::Imports(&[ImportKind::Function(9), CONSTANT])],
        RULE,
    ),
    // a call of that import
    (
        &[
            Change::Imports(&[ImportKind::Function(9), CONSTANT]),
            Change::Bodies(&[&[0x20, 0x00, 0x10, 0x00]]),
        ],
        Some(Invalid::Function(1)),
    ),
    // a call of that import behind unreachable
    (
        &[
            Change::Imports(&[ImportKind::Function(9), CONSTANT]),
            Change::Bodies(&[&[0x00, 0x10, 0x00]]),
        ],
        Some(Invalid::Function(1)),
    ),
    // a function's type doesn't exist
    (&[Change::Functions(&[9])], Some(Invalid::Function(1))),
    // that function's body can't be reached
    (
        &[Change::Functions(&[9]), Change::Bodies(&[&[0x00]])],
        Some(Invalid::Function(1)),
    ),
    // a function without code
    (&[Change::Functions(&[1, 1])], Some(Invalid::Function(2))),
    // a code without function
    (&[Change::Bodies(&[&[0x20, 0x00], &[0x20, 0x00]])], RULE),
    // a body without operands
    (
        &[Change::Bare, Change::Bodies(&[&[0x6A]])],
        Some(Invalid::Function(0)),
    ),
    // that body behind an import
    (
        &[
            Change::Bare,
            Change::Imports(&[ImportKind::Function(0)]),
            Change::Bodies(&[&[0x6A]]),
        ],
        Some(Invalid::Function(1)),
    ),
    // that body behind unreachable
    (
        &[Change::Bare, Change::Bodies(&[&[0x00, 0x6A, 0x1A]])],
        None,
    ),
    // two such bodies
    (
        &[
            Change::Functions(&[1, 1, 1]),
            Change::Bodies(&[&[0x20, 0x00], &[0x6A], &[0x6A]]),
        ],
        Some(Invalid::Function(2)),
    ),
    // that body and a second memory
    (
        &[
            Change::Memories(&[(1, None), (1, None)]),
            Change::Bodies(&[&[0x6A]]),
        ],
        Some(Invalid::Function(1)),
    ),
    // a type of two results beside that body
    (
        &[
            Change::Types(&[(&[], &[]), (&[I32], &[I32]), (&[], &[I32, I32])]),
            Change::Bodies(&[&[0x6A]]),
        ],
        Some(Invalid::Function(1)),
    ),
];

/// Code.
pub(super) static CODE: [Case; 16] = [
    // a local of f32
    (&[Change::Locals(&[(1, F32)])], RULE),
    // locals in several runs
    (
        &[
            Change::Locals(&[(2, I32), (0, I64), (1, I64)]),
            Change::Bodies(&[&[0x20, 0x03, 0xA7, 0x20, 0x02, 0x6A]]),
        ],
        None,
    ),
    // a block of f32
    (
        &[Change::Bodies(&[&[0x02, 0x7D, 0x00, 0x0B, 0x1A, 0x20, 0x00]])],
        RULE,
    ),
    // f32.const
    (
        &[Change::Bodies(&[&[0x43, 0x00, 0x00, 0x00, 0x00, 0x1A, 0x20, 0x00]])],
        Some(Invalid::Function(1)),
    ),
    // f32.add behind unreachable
    (
        &[Change::Bodies(&[&[0x00, 0x92, 0x1A, 0x20, 0x00]])],
        Some(Invalid::Function(1)),
    ),
    // i32.extend8_s
    (&[Change::Bodies(&[&[0x20, 0x00, 0xC0]])], None),
    // i32.extend16_s of an i64
    (
        &[Change::Bodies(&[&[0x20, 0x01, 0xC1]])],
        Some(Invalid::Function(1)),
    ),
    // i64.extend32_s
    (&[Change::Bodies(&[&[0x20, 0x01, 0xC4, 0xA7]])], None),
    // no memory for a load
    (
        &[
            Change::Memories(&[]),
            Change::Bodies(&[&[0x20, 0x00, 0x28, 0x02, 0x00]]),
        ],
        Some(Invalid::Function(1)),
    ),
    // no memory for a store
    (
        &[
            Change::Memories(&[]),
            Change::Bodies(&[&[0x20, 0x00, 0x20, 0x00, 0x36, 0x02, 0x00, 0x20, 0x00]]),
        ],
        Some(Invalid::Function(1)),
    ),
    // no memory for memory.size
    (
        &[Change::Memories(&[]), Change::Bodies(&[&[0x3F, 0x00]])],
        Some(Invalid::Function(1)),
    ),
    // no memory for memory.grow
    (
        &[
            Change::Memories(&[]),
            Change::Bodies(&[&[0x20, 0x00, 0x40, 0x00]]),
        ],
        Some(Invalid::Function(1)),
    ),
    // an imported memory
    (
        &[
            Change::Imports(&[
                FUNCTION,
                CONSTANT,
                ImportKind::Memory(Limits { min: 1, max: None }),
            ]),
            Change::Memories(&[]),
            Change::Bodies(&[&[0x20, 0x00, 0x28, 0x02, 0x00]]),
        ],
        None,
    ),
    // no table for call_indirect
    (
        &[
            Change::Tables(&[]),
            Change::Bodies(&[&[0x20, 0x00, 0x20, 0x00, 0x11, 0x01, 0x00]]),
        ],
        Some(Invalid::Function(1)),
    ),
    // an imported table
    (
        &[
            Change::Imports(&[
                FUNCTION,
                CONSTANT,
                ImportKind::Table(Limits { min: 1, max: None }),
            ]),
            Change::Tables(&[]),
            Change::Bodies(&[&[0x20, 0x00, 0x20, 0x00, 0x11, 0x01, 0x00]]),
        ],
        None,
    ),
    // global.set of an imported variable
    (
        &[
            Change::Imports(&[
                FUNCTION,
                ImportKind::Global(GlobalType {
                    kind: I32,
                    mutable: true,
                }),
            ]),
            Change::Bodies(&[&[0x20, 0x00, 0x24, 0x00, 0x20, 0x00]]),
        ],
        None,
    ),
];

/// Tables, memories and globals.
pub(super) static STORES: [Case; 25] = [
    // a second table
    (&[Change::Tables(&[(1, None), (1, None)])], RULE),
    // an imported table beside one
    (
        &[Change::Imports(&[
            FUNCTION,
            CONSTANT,
            ImportKind::Table(Limits { min: 1, max: None }),
        ])],
        RULE,
    ),
    // a second memory
    (&[Change::Memories(&[(1, None), (1, None)])], RULE),
    // an imported memory beside one
    (
        &[Change::Imports(&[
            FUNCTION,
            CONSTANT,
            ImportKind::Memory(Limits { min: 1, max: None }),
        ])],
        RULE,
    ),
    // a table's minimum above its maximum
    (&[Change::Tables(&[(2, Some(1))])], RULE),
    // a table's minimum at its maximum
    (&[Change::Tables(&[(2, Some(2))])], None),
    // an imported table's minimum above its maximum
    (
        &[
            Change::Imports(&[
                FUNCTION,
                CONSTANT,
                ImportKind::Table(Limits {
                    min: 2,
                    max: Some(1),
                }),
            ]),
            Change::Tables(&[]),
        ],
        RULE,
    ),
    // a memory's minimum above its maximum
    (&[Change::Memories(&[(2, Some(1))])], RULE),
    // a memory's minimum at its maximum
    (&[Change::Memories(&[(2, Some(2))])], None),
    // a memory's minimum of 65,536
    (&[Change::Memories(&[(65536, None)])], None),
    // a memory's minimum of 65,537
    (&[Change::Memories(&[(65537, None)])], RULE),
    // a memory's maximum of 65,536
    (&[Change::Memories(&[(1, Some(65536))])], None),
    // a memory's maximum of 65,537
    (&[Change::Memories(&[(1, Some(65537))])], RULE),
    // an imported memory's maximum of 65,537
    (
        &[
            Change::Imports(&[
                FUNCTION,
                CONSTANT,
                ImportKind::Memory(Limits {
                    min: 1,
                    max: Some(65537),
                }),
            ]),
            Change::Memories(&[]),
        ],
        RULE,
    ),
    // an imported global of f64
    (
        &[Change::Imports(&[
            FUNCTION,
            CONSTANT,
            ImportKind::Global(GlobalType {
                kind: F64,
                mutable: false,
            }),
        ])],
        RULE,
    ),
    // a global of another type than its constant
    (&[Change::Globals(&[(I64, true, &[0x41, 0x00])])], RULE),
    // a global without initial value
    (&[Change::Globals(&[(I64, true, &[])])], RULE),
    // a global of two constants
    (
        &[Change::Globals(&[(I64, true, &[0x42, 0x00, 0x42, 0x00])])],
        RULE,
    ),
    // a global of a size
    (&[Change::Globals(&[(I32, true, &[0x3F, 0x00])])], RULE),
    // a global of an imported one
    (
        &[Change::Globals(&[(I64, true, &[0x42, 0x00]), (I32, false, &[0x23, 0x00])])],
        None,
    ),
    // a global of an imported one of another type
    (
        &[Change::Globals(&[(I64, true, &[0x42, 0x00]), (I64, false, &[0x23, 0x00])])],
        RULE,
    ),
    // a global of an imported variable
    (
        &[
            Change::Imports(&[
                FUNCTION,
                ImportKind::Global(GlobalType {
                    kind: I32,
                    mutable: true,
                }),
            ]),
            Change::Globals(&[(I32, false, &[0x23, 0x00])]),
        ],
        RULE,
    ),
    // a global of a variable that is defined
    (
        &[Change::Globals(&[(I64, true, &[0x42, 0x00]), (I64, false, &[0x23, 0x01])])],
        RULE,
    ),
    // a global of a constant that is defined
    (
        &[Change::Globals(&[(I32, false, &[0x41, 0x00]), (I32, false, &[0x23, 0x01])])],
        RULE,
    ),
    // a global of none
    (
        &[Change::Globals(&[(I64, true, &[0x42, 0x00]), (I32, false, &[0x23, 0x07])])],
        RULE,
    ),
];

/// Segments, exports and the start function.
pub(super) static SEGMENTS: [Case; 32] = [
    // a segment
    (&[Change::Elements(&[(0, &[0x41, 0x00], &[1, 0])])], None),
    // a segment without functions
    (&[Change::Elements(&[(0, &[0x41, 0x00], &[])])], None),
    // a segment of no table
    (&[Change::Elements(&[(1, &[0x41, 0x00], &[1])])], RULE),
    // a segment where there is no table
    (
        &[
            Change::Tables(&[]),
            Change::Elements(&[(0, &[0x41, 0x00], &[1])]),
        ],
        RULE,
    ),
    // a segment of no function
    (&[Change::Elements(&[(0, &[0x41, 0x00], &[1, 2])])], RULE),
    // a segment at an i64
    (&[Change::Elements(&[(0, &[0x42, 0x00], &[1])])], RULE),
    // a segment at an imported global
    (&[Change::Elements(&[(0, &[0x23, 0x00], &[1])])], None),
    // a segment at a constant that is defined
    (
        &[
            Change::Globals(&[(I32, false, &[0x41, 0x00])]),
            Change::Elements(&[(0, &[0x23, 0x01], &[1])]),
        ],
        None,
    ),
    // a segment at a variable
    (&[Change::Elements(&[(0, &[0x23, 0x01], &[1])])], RULE),
    // a segment at nothing
    (&[Change::Elements(&[(0, &[], &[1])])], RULE),
    // data
    (&[Change::Segments(&[(0, &[0x41, 0x00])])], None),
    // data of no memory
    (&[Change::Segments(&[(1, &[0x41, 0x00])])], RULE),
    // data where there is no memory
    (
        &[
            Change::Memories(&[]),
            Change::Segments(&[(0, &[0x41, 0x00])]),
        ],
        RULE,
    ),
    // data at an i64
    (&[Change::Segments(&[(0, &[0x42, 0x00])])], RULE),
    // data at an imported global
    (&[Change::Segments(&[(0, &[0x23, 0x00])])], None),
    // data at an imported global of i64
    (
        &[
            Change::Imports(&[
                FUNCTION,
                ImportKind::Global(GlobalType {
                    kind: I64,
                    mutable: false,
                }),
            ]),
            Change::Segments(&[(0, &[0x23, 0x00])]),
        ],
        RULE,
    ),
    // data at a constant that is defined
    (
        &[
            Change::Globals(&[(I32, false, &[0x41, 0x00])]),
            Change::Segments(&[(0, &[0x23, 0x01])]),
        ],
        None,
    ),
    // data at a variable
    (&[Change::Segments(&[(0, &[0x23, 0x01])])], RULE),
    // data at no global
    (&[Change::Segments(&[(0, &[0x23, 0x07])])], RULE),
    // data at nothing
    (&[Change::Segments(&[(0, &[])])], RULE),
    // data at two constants
    (&[Change::Segments(&[(0, &[0x41, 0x00, 0x41, 0x00])])], RULE),
    // exports of each kind
    (
        &[Change::Exports(&[
            (b"f", ExportKind::Function, 1),
            (b"t", ExportKind::Table, 0),
            (b"m", ExportKind::Memory, 0),
            (b"g", ExportKind::Global, 1),
        ])],
        None,
    ),
    // exports of what is imported
    (
        &[Change::Exports(&[
            (b"f", ExportKind::Function, 0),
            (b"g", ExportKind::Global, 0),
        ])],
        None,
    ),
    // one function by two names
    (
        &[Change::Exports(&[
            (b"f", ExportKind::Function, 1),
            (b"g", ExportKind::Function, 1),
        ])],
        None,
    ),
    // an export of no function
    (&[Change::Exports(&[(b"f", ExportKind::Function, 2)])], RULE),
    // an export of no table
    (&[Change::Exports(&[(b"f", ExportKind::Table, 1)])], RULE),
    // an export of no memory
    (&[Change::Exports(&[(b"f", ExportKind::Memory, 1)])], RULE),
    // an export of no global
    (&[Change::Exports(&[(b"f", ExportKind::Global, 2)])], RULE),
    // two exports of one name
    (
        &[Change::Exports(&[
            (b"f", ExportKind::Function, 1),
            (b"m", ExportKind::Memory, 0),
            (b"f", ExportKind::Memory, 0),
        ])],
        RULE,
    ),
    // an export without a name
    (&[Change::Exports(&[(b"", ExportKind::Function, 1)])], None),
    // a start function
    (
        &[
            Change::Functions(&[1, 0]),
            Change::Bodies(&[&[0x20, 0x00], &[]]),
            Change::Start(2),
        ],
        RULE,
    ),
    // a start function with a parameter
    (&[Change::Start(1)], RULE),
];
