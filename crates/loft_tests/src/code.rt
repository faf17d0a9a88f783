//! Which operation is refused, and why: each error in each way in which a listing can have it. The answers are worked out
//! from docs/CODE.md by hand.

mod calls;

use loft_base::{ModuleId, NoMemory};
use loft_code::{CodeError, OpAt, validate};
use loft_listing_reader::read;
use std::alloc::Global;

/// What stands before the operations of the module `m`.
const HEAD: &[u8] = b"loft-listing 1
scheduler A;
scheduler B;
event e in A;
event f in B;
shared x in A = 0;
shared y in B = 0;
module m(int k, thread t) in A
local int n;
local thread u;
";

/// What stands after them: modules that end elsewhere.
const TAIL: &[u8] = b"end
module p(int i, thread j) in A to unlinked
0 A 0 @1 unlink;
1 unlinked 0 end
end
module q() in unlinked to B
0 unlinked 0 @1 link B;
1 B 0 end
end
";

/// The listing with these operations in its first module.
fn listing(alloc: Global, operations: &[u8]) -> Result<Vec<u8>, NoMemory> {
    let mut text = Vec::from_slice(alloc, HEAD)?;
    text.extend_from_slice(operations)?;
    text.extend_from_slice(TAIL)?;
    Ok(text)
}

/// Whether code whose first module has these operations has this error, or none.
fn is_answered(alloc: Global, operations: &[u8], wanted: Option<CodeError>) -> bool {
    let Ok(text) = listing(alloc, operations) else {
        return false;
    };
    match read(alloc, text.as_slice()) {
        Ok(raw) => validate(alloc, raw).err() == wanted,
        Err(_) => false,
    }
}

/// The same error at another operation of the first module.
fn error_at(error: CodeError, op: u32) -> CodeError {
    match error {
        CodeError::JumpOut(_) => CodeError::JumpOut(at(op)),
        CodeError::BadStop(_) => CodeError::BadStop(at(op)),
        CodeError::BadPlace(_) => CodeError::BadPlace(at(op)),
        CodeError::BadCount(_) => CodeError::BadCount(at(op)),
        CodeError::KindMismatch(_) => CodeError::KindMismatch(at(op)),
        other => other,
    }
}

/// The index of the first row that is answered otherwise than by this error, at its operation.
fn first_other(alloc: Global, rows: &[(&'static [u8], u32)], wanted: CodeError) -> Option<usize> {
    for (index, (operations, op)) in rows.iter().enumerate() {
        if !is_answered(alloc, operations, Some(error_at(wanted, *op))) {
            return Some(index);
        }
    }
    None
}

/// An operation of the first module.
fn at(op: u32) -> OpAt {
    OpAt {
        module: ModuleId(0),
        op,
    }
}

const OP_0: OpAt = OpAt {
    module: ModuleId(0),
    op: 0,
};

const OP_1: OpAt = OpAt {
    module: ModuleId(0),
    op: 1,
};

static VALID: [&'static [u8]; 7] = [
    b"0 A 0 end\n",
    // if (k) then print 1; else end
    b"0 A 0 branch 3 k\n1 A 0 print 1;\n2 A 0 jump 4\n3 A 0 print 1;\n4 A 0 end\n",
    // while (k) do cooperate; end
    b"0 A 0 enter\n1 A 0 branch 4 k\n2 A 0 @1 cooperate;\n3 A 0 jump 1\n4 A 0 end\n",
    // repeat (k) do repeat (1) do print 1; end end
    b"0 A 0 count k\n1 A 1 turn 7\n2 A 1 count 1\n3 A 2 turn 6\n4 A 2 print 1;\n\
      5 A 2 jump 3\n6 A 1 jump 1\n7 A 0 end\n",
    // a way through every place
    b"0 A 0 @1 run p(1, t);\n1 unlinked 0 @2 run q();\n2 B 0 generate f, y;\n\
      3 B 0 @3 unlink;\n4 unlinked 0 stop t in B;\n5 unlinked 0 broadcast e, k;\n\
      6 unlinked 0 @4 link A;\n7 A 0 @5 halt;\n8 A 0 end\n",
    // all that needs a linked thread
    b"0 A 0 u = create A.p(1, t);\n1 A 0 create A.p(-1, t);\n2 A 0 print \"\", t;\n\
      3 A 0 print \"\";\n4 A 0 print self == u;\n5 A 0 x = k;\n6 A 0 t = t;\n\
      7 A 0 @1 await e for k;\n8 A 0 @2 select e, e, e, e, e, e, e, e;\n\
      9 A 0 @3 get e at k into n;\n10 A 0 @4 join t for k;\n11 A 0 @5 cooperate k;\n\
      12 A 0 end\n",
    // what nothing reaches has to be valid too, and a thread may be left where it can't go on
    b"0 A 0 jump 2\n1 A 0 enter\n2 A 0 end\n",
];

static JUMPS: [(&'static [u8], u32); 15] = [
    // a target isn't there
    (b"0 A 0 branch 2 1\n1 A 0 end\n", 0),
    (b"0 A 0 count 1\n1 A 1 turn 3\n2 A 0 end\n", 1),
    (b"0 A 0 jump 1\n", 0),
    (b"0 A 0 jump 9223372036854775807\n1 A 0 end\n", 0),
    // a `jump` goes to itself, or back to what is no test
    (b"0 A 0 jump 0\n1 A 0 end\n", 0),
    (
        b"0 A 0 print 1;\n1 A 0 @1 cooperate;\n2 A 0 print 1;\n3 A 0 jump 0\n",
        3,
    ),
    (b"0 A 0 enter\n1 A 0 jump 0\n2 A 0 end\n", 1),
    // a `branch` or a `turn` goes to itself, or back
    (b"0 A 0 branch 0 1\n1 A 0 end\n", 0),
    (b"0 A 0 print 1;\n1 A 0 branch 0 1\n2 A 0 end\n", 1),
    (b"0 A 0 count 1\n1 A 1 turn 1\n2 A 0 end\n", 1),
    (b"0 A 0 count 1\n1 A 1 turn 3\n2 A 1 turn 1\n3 A 0 end\n", 2),
    // the last operation goes on
    (b"0 A 0 print 1;\n", 0),
    (b"0 A 0 end\n1 A 0 enter\n", 1),
    (b"0 A 0 end\n1 A 0 @1 halt;\n", 1),
    // there is none
    (b"", 0),
];

static STOPS: [(&'static [u8], u32); 5] = [
    (b"0 A 0 @0 halt;\n1 A 0 end\n", 0),
    (b"0 A 0 @2 halt;\n1 A 0 @1 cooperate;\n2 A 0 end\n", 0),
    (b"0 A 0 @1 cooperate;\n1 A 0 @1 cooperate;\n2 A 0 end\n", 1),
    (
        b"0 A 0 @1 cooperate;\n1 A 0 print 1;\n2 A 0 @3 join t;\n3 A 0 end\n",
        2,
    ),
    // a `run` is a stop
    (
        b"0 A 0 @1 cooperate;\n1 A 0 end\n2 A 0 @1 run p(1, t);\n3 unlinked 0 @2 link A;\n\
          4 A 0 end\n",
        2,
    ),
];

static PLACES: [(&'static [u8], u32); 28] = [
    // only a linked thread may do it
    (
        b"0 A 0 @1 unlink;\n1 unlinked 0 print 1;\n2 unlinked 0 @2 link A;\n3 A 0 end\n",
        1,
    ),
    (
        b"0 A 0 @1 unlink;\n1 unlinked 0 print \"\";\n2 unlinked 0 @2 link A;\n3 A 0 end\n",
        1,
    ),
    (
        b"0 A 0 @1 unlink;\n1 unlinked 0 create A.p(1, t);\n2 unlinked 0 @2 link A;\n3 A 0 end\n",
        1,
    ),
    (
        b"0 A 0 @1 unlink;\n1 unlinked 0 generate e;\n2 unlinked 0 @2 link A;\n3 A 0 end\n",
        1,
    ),
    (
        b"0 A 0 @1 unlink;\n1 unlinked 0 @2 cooperate;\n2 unlinked 0 @3 link A;\n3 A 0 end\n",
        1,
    ),
    (
        b"0 A 0 @1 unlink;\n1 unlinked 0 @2 await e;\n2 unlinked 0 @3 link A;\n3 A 0 end\n",
        1,
    ),
    (
        b"0 A 0 @1 unlink;\n1 unlinked 0 @2 get e at 1 into k;\n2 unlinked 0 @3 link A;\n\
          3 A 0 end\n",
        1,
    ),
    (
        b"0 A 0 @1 unlink;\n1 unlinked 0 @2 join t;\n2 unlinked 0 @3 link A;\n3 A 0 end\n",
        1,
    ),
    (
        b"0 A 0 @1 unlink;\n1 unlinked 0 @2 unlink;\n2 unlinked 0 @3 link A;\n3 A 0 end\n",
        1,
    ),
    (
        b"0 A 0 @1 unlink;\n1 unlinked 0 @2 halt;\n2 unlinked 0 @3 link A;\n3 A 0 end\n",
        1,
    ),
    // a shared variable of another scheduler, or where the thread isn't linked
    (b"0 A 0 print y;\n1 A 0 end\n", 0),
    (b"0 A 0 y = 1;\n1 A 0 end\n", 0),
    (
        b"0 A 0 @1 unlink;\n1 unlinked 0 x = 1;\n2 unlinked 0 @2 link A;\n3 A 0 end\n",
        1,
    ),
    (
        b"0 A 0 @1 unlink;\n1 unlinked 0 broadcast e, y;\n2 unlinked 0 @2 link A;\n3 A 0 end\n",
        1,
    ),
    // an event of another scheduler
    (b"0 A 0 generate f;\n1 A 0 end\n", 0),
    (b"0 A 0 @1 select e, f;\n1 A 0 end\n", 0),
    (b"0 A 0 @1 get f at 1 into k;\n1 A 0 end\n", 0),
    // a module that begins elsewhere
    (b"0 A 0 @1 run q();\n1 A 0 @2 link A;\n2 A 0 end\n", 0),
    (b"0 A 0 create B.p(1, t);\n1 A 0 end\n", 0),
    (b"0 A 0 create A.q();\n1 A 0 end\n", 0),
    // the module begins or ends elsewhere
    (b"0 B 0 @1 link A;\n1 A 0 end\n", 0),
    (b"0 A 0 @1 link B;\n1 B 0 end\n", 1),
    // an operation at which it goes on has another place
    (b"0 A 0 print 1;\n1 B 0 @1 link A;\n2 A 0 end\n", 0),
    (b"0 A 0 @1 link B;\n1 A 0 end\n", 0),
    (b"0 A 0 @1 unlink;\n1 A 0 end\n", 0),
    (b"0 A 0 @1 run p(1, t);\n1 A 0 end\n", 0),
    (
        b"0 A 0 branch 2 1\n1 A 0 end\n2 B 0 @1 link A;\n3 A 0 end\n",
        0,
    ),
    (b"0 A 0 jump 1\n1 unlinked 0 @1 link A;\n2 A 0 end\n", 0),
];

static COUNTS: [(&'static [u8], u32); 10] = [
    // the module begins or ends with counts
    (b"0 A 1 turn 1\n1 A 0 end\n", 0),
    (b"0 A 0 end\n1 A 1 end\n", 1),
    // an operation at which it goes on has another depth
    (b"0 A 0 print 1;\n1 A 1 turn 2\n2 A 0 end\n", 0),
    (b"0 A 0 count 1\n1 A 0 print 1;\n2 A 0 end\n", 0),
    (b"0 A 0 branch 2 1\n1 A 0 end\n2 A 1 turn 3\n3 A 0 end\n", 0),
    (
        b"0 A 0 count 1\n1 A 1 turn 3\n2 A 1 jump 1\n3 A 1 turn 4\n4 A 0 end\n",
        1,
    ),
    (
        b"0 A 0 count 1\n1 A 1 turn 3\n2 A 0 print 1;\n3 A 0 end\n",
        1,
    ),
    (
        b"0 A 0 count 1\n1 A 1 turn 2\n2 A 0 print 1;\n3 A 0 end\n",
        1,
    ),
    // a `turn` without a count
    (b"0 A 0 turn 1\n1 A 0 end\n", 0),
    // more than 32
    (
        b"0 A 0 end\n1 A 33 jump 2\n2 A 33 turn 4\n3 A 33 jump 2\n4 A 0 end\n",
        1,
    ),
];

static KINDS: [(&'static [u8], u32); 24] = [
    // operators
    (b"0 A 0 print 1 + self;\n1 A 0 end\n", 0),
    (b"0 A 0 print k != t;\n1 A 0 end\n", 0),
    (b"0 A 0 print \"\", -u;\n1 A 0 end\n", 0),
    // tests and counts
    (b"0 A 0 branch 1 t\n1 A 0 end\n", 0),
    (b"0 A 0 count t\n1 A 1 turn 3\n2 A 1 jump 1\n3 A 0 end\n", 0),
    // variables that are set
    (b"0 A 0 k = t;\n1 A 0 end\n", 0),
    (b"0 A 0 t = k;\n1 A 0 end\n", 0),
    (b"0 A 0 x = t;\n1 A 0 end\n", 0),
    (b"0 A 0 n = create A.p(1, t);\n1 A 0 end\n", 0),
    (b"0 A 0 x = create A.p(1, t);\n1 A 0 end\n", 0),
    (b"0 A 0 @1 get e at 1 into u;\n1 A 0 end\n", 0),
    // arguments
    (b"0 A 0 create A.p(1);\n1 A 0 end\n", 0),
    (b"0 A 0 create A.p(t, t);\n1 A 0 end\n", 0),
    (
        b"0 A 0 @1 run p(1, t, t);\n1 unlinked 0 @2 link A;\n2 A 0 end\n",
        0,
    ),
    (
        b"0 A 0 @1 run p(1, 1);\n1 unlinked 0 @2 link A;\n2 A 0 end\n",
        0,
    ),
    // operands
    (b"0 A 0 stop k in A;\n1 A 0 end\n", 0),
    (b"0 A 0 generate e, t;\n1 A 0 end\n", 0),
    (b"0 A 0 broadcast e, t;\n1 A 0 end\n", 0),
    (b"0 A 0 @1 cooperate t;\n1 A 0 end\n", 0),
    (b"0 A 0 @1 await e for t;\n1 A 0 end\n", 0),
    (b"0 A 0 @1 get e at t into n;\n1 A 0 end\n", 0),
    (b"0 A 0 @1 join k;\n1 A 0 end\n", 0),
    (b"0 A 0 @1 join t for t;\n1 A 0 end\n", 0),
    // an operation that nothing reaches
    (
        b"0 A 0 @1 halt;\n1 A 0 end\n2 A 0 print 1 + self;\n3 A 0 end\n",
        2,
    ),
];

static FIRST: [(&'static [u8], CodeError); 6] = [
    (
        b"0 A 0 @2 get f at 1 into k;\n1 A 0 end\n",
        CodeError::BadStop(OP_0),
    ),
    (b"0 B 1 turn 1\n1 A 0 end\n", CodeError::BadPlace(OP_0)),
    (b"0 A 1 branch 1 t\n1 A 0 end\n", CodeError::BadCount(OP_0)),
    (
        b"0 A 0 print 1 + self;\n1 A 0 print 1;\n",
        CodeError::KindMismatch(OP_0),
    ),
    // the operation that goes on at one of another place is refused, and not that one
    (
        b"0 A 0 @1 halt;\n1 unlinked 0 end\n",
        CodeError::BadPlace(OP_0),
    ),
    (
        b"0 A 0 print 1;\n1 A 0 count t\n2 A 0 end\n",
        CodeError::BadCount(OP_1),
    ),
];

/// The index of the first row of valid code that is refused.
fn first_refused(alloc: Global) -> Option<usize> {
    VALID
        .iter()
        .position(|operations| !is_answered(alloc, operations, None))
}

/// The index of the first row with two causes that is answered otherwise than by its first.
fn first_later(alloc: Global) -> Option<usize> {
    FIRST.iter().position(|(operations, first)| !is_answered(alloc, operations, Some(*first)))
}

/// Of two causes at one operation the one that is asked first counts, and of two operations the first.
#[test]
fn errors_are_the_first(rt: HostRuntime) {
    let alloc = rt.alloc();
    let others = [
        first_refused(alloc),
        first_other(alloc, JUMPS.as_slice(), CodeError::JumpOut(OP_0)),
        first_other(alloc, STOPS.as_slice(), CodeError::BadStop(OP_0)),
        first_other(alloc, PLACES.as_slice(), CodeError::BadPlace(OP_0)),
        first_other(alloc, COUNTS.as_slice(), CodeError::BadCount(OP_0)),
        first_other(alloc, KINDS.as_slice(), CodeError::KindMismatch(OP_0)),
        first_later(alloc),
    ];
    assert_eq!(rt; others, [None; 7]);
}
