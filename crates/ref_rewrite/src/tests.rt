// Three images with spans of a few bytes, by values written out by hand: the same bytes for any number of jobs.
ghost use Rattle.std.specs.Prelude.{◌≡◌, ◌≤◌, IfOk};
ghost use Rattle.ref_rewrite.specs.Plans.{Fit, IsSoundPlan};

mod dylibs;
mod planned;

use super::*;
use dsc_base::{Gate, NoMemory, Span};
use std::alloc::Global;
use std::sync::atomic::{AtomicU64, Ordering};
use std::test::*;
use std::thread::Threads;

/// Each image counts in 16 bits of its own.
#[derive(Drop)]
struct CountingGate {
    entered: AtomicU64,
}

impl Gate for CountingGate {
    fn enter(&self, image: u32) {
        let one = 1u64.wrapping_shl(image.wrapping_mul(16));
        self.entered.fetch_add(one, Ordering::SeqCst);
    }
}

/// How often the first image looks whether a second one has begun: far more than a thread takes to start.
const TURNS: u32 = 200_000_000;

/// Its first call waits until there is a second one, and notes whether there was.
#[derive(Drop)]
struct WaitingGate {
    entered: AtomicU64,
    met: AtomicU64,
}

impl Gate for WaitingGate {
    fn enter(&self, _image: u32) {
        if self.entered.fetch_add(1, Ordering::SeqCst) != 0 {
            return;
        }
        for _ in 0..TURNS {
            if self.entered.load(Ordering::SeqCst) > 1 {
                self.met.store(1, Ordering::SeqCst);
                return;
            }
        }
    }
}

/// Pieces in each span, a header over a part of the first, and edits over both.
fn first(alloc: Global) -> Result<ImagePlan<'static>, NoMemory>
    ensures sound { IfOk result IsSoundPlan }
    ensures text { IfOk result (λ p. p.text ≡ record { at = 0x1000; len = 8 }) }
    ensures writable { IfOk result (λ p. p.writable ≡ record { at = 0x3000; len = 8 }) }
    ensures fixed { IfOk result (λ p. p.fixed ≡ record { at = 0x2000; len = 4 }) }
{
    let copies = [
        Piece {
            at: 0x1000,
            bytes: &[1, 2, 3, 4, 5, 6, 7, 8],
        },
        Piece {
            at: 0x3000,
            bytes: &[0x31, 0x32],
        },
        Piece {
            at: 0x2000,
            bytes: &[0x21, 0x22],
        },
    ];
    let edits = [
        Edit {
            at: 0x1004,
            width: 4,
            value: 0x44332211,
        },
        Edit {
            at: 0x3000,
            width: 8,
            value: 0x8877665544332211,
        },
        Edit {
            at: 0x2000,
            width: 4,
            value: 7,
        },
    ];
    Ok(ImagePlan {
        copies: Vec::from_array(alloc, copies)?,
        edits: Vec::from_array(alloc, edits)?,
        header: Vec::from_array(alloc, [0xa0, 0xa1, 0xa2])?,
        header_at: 0x1000,
        text: Span { at: 0x1000, len: 8 },
        writable: Span { at: 0x3000, len: 8 },
        fixed: Span { at: 0x2000, len: 4 },
        words: Vec::new(alloc),
    })
}

/// Pieces over one another in the fixed span, a header over a piece and an edit over both, and no writable byte.
fn second(alloc: Global) -> Result<ImagePlan<'static>, NoMemory>
    ensures sound { IfOk result IsSoundPlan }
    ensures text { IfOk result (λ p. p.text ≡ record { at = 0x1008; len = 12 }) }
    ensures writable { IfOk result (λ p. p.writable ≡ record { at = 0x3008; len = 0 }) }
    ensures fixed { IfOk result (λ p. p.fixed ≡ record { at = 0x2004; len = 8 }) }
{
    let copies = [
        Piece {
            at: 0x2004,
            bytes: &[1, 1, 1, 1, 1, 1],
        },
        Piece {
            at: 0x2006,
            bytes: &[2, 2],
        },
        Piece {
            at: 0x100c,
            bytes: &[1, 2, 3, 4, 5, 6, 7, 8],
        },
    ];
    let edits = [Edit {
        at: 0x100a,
        width: 4,
        value: 0xddccbbaa,
    }];
    Ok(ImagePlan {
        copies: Vec::from_array(alloc, copies)?,
        edits: Vec::from_array(alloc, edits)?,
        header: Vec::from_array(alloc, [0xb0, 0xb1, 0xb2, 0xb3, 0xb4, 0xb5])?,
        header_at: 0x1008,
        text: Span {
            at: 0x1008,
            len: 12,
        },
        writable: Span { at: 0x3008, len: 0 },
        fixed: Span { at: 0x2004, len: 8 },
        words: Vec::new(alloc),
    })
}

/// A header and edits at the ends of the spans.
fn third(alloc: Global) -> Result<ImagePlan<'static>, NoMemory>
    ensures sound { IfOk result IsSoundPlan }
    ensures text { IfOk result (λ p. p.text ≡ record { at = 0x1014; len = 4 }) }
    ensures writable { IfOk result (λ p. p.writable ≡ record { at = 0x3008; len = 8 }) }
    ensures fixed { IfOk result (λ p. p.fixed ≡ record { at = 0x200c; len = 8 }) }
{
    let copies = [Piece {
        at: 0x3008,
        bytes: &[9, 9],
    }];
    let edits = [
        Edit {
            at: 0x300c,
            width: 4,
            value: 0xffffffff,
        },
        Edit {
            at: 0x200c,
            width: 8,
            value: 0x0102030405060708,
        },
    ];
    Ok(ImagePlan {
        copies: Vec::from_array(alloc, copies)?,
        edits: Vec::from_array(alloc, edits)?,
        header: Vec::from_array(alloc, [0xc0, 0xc1])?,
        header_at: 0x1016,
        text: Span { at: 0x1014, len: 4 },
        writable: Span { at: 0x3008, len: 8 },
        fixed: Span { at: 0x200c, len: 8 },
        words: Vec::new(alloc),
    })
}

fn three(alloc: Global) -> Result<Vec<ImagePlan<'static>>, NoMemory>
    ensures { IfOk result (λ v. Fit 24 16 20 v.items) }
{
    let plans = [first(alloc)?, second(alloc)?, third(alloc)?];
    Ok(Vec::from_array(alloc, plans)?)
}

const TEXT: [u8; 24] = [
    0xa0, 0xa1, 0xa2, 4, 0x11, 0x22, 0x33, 0x44, 0xb0, 0xb1, 0xaa, 0xbb, 0xcc, 0xdd, 3, 4, 5, 6, 7,
    8, 0, 0, 0xc0, 0xc1,
];

const WRITABLE: [u8; 16] = [
    0x11, 0x22, 0x33, 0x44, 0x55, 0x66, 0x77, 0x88, 9, 9, 0, 0, 0xff, 0xff, 0xff, 0xff,
];

const FIXED: [u8; 20] = [7, 0, 0, 0, 1, 1, 2, 2, 1, 1, 0, 0, 8, 7, 6, 5, 4, 3, 2, 1];

#[test]
fn any_number_of_jobs_gives_the_same_bytes(rt: HostRuntime) -> Result<(), Fail> {
    let plans = three(rt.alloc())?;
    for jobs in [1, 2, 3, 64] {
        assert!(rt; 1 <= jobs && jobs <= 64);
        let mut text = [0u8; 24];
        let mut writable = [0u8; 16];
        let mut fixed = [0u8; 20];
        let gate = CountingGate {
            entered: AtomicU64::new(0),
        };
        rewrite_all(
            &rt,
            &mut text,
            &mut writable,
            &mut fixed,
            &plans,
            jobs,
            &gate,
        );
        assert_eq!(rt; text, TEXT, "{jobs} jobs");
        assert_eq!(rt; writable, WRITABLE, "{jobs} jobs");
        assert_eq!(rt; fixed, FIXED, "{jobs} jobs");
        assert_eq!(rt;
            gate.entered.load(Ordering::SeqCst),
            0x0001_0001_0001,
            "{jobs} jobs"
        );
    }
    Ok(())
}

#[test]
fn two_images_are_rewritten_at_the_same_time(rt: HostRuntime) -> Result<(), Fail> {
    let plans = three(rt.alloc())?;
    let gate = WaitingGate {
        entered: AtomicU64::new(0),
        met: AtomicU64::new(0),
    };
    let mut text = [0u8; 24];
    let mut writable = [0u8; 16];
    let mut fixed = [0u8; 20];
    rewrite_all(&rt, &mut text, &mut writable, &mut fixed, &plans, 2, &gate);
    assert_eq!(rt; gate.met.load(Ordering::SeqCst), 1);
    assert_eq!(rt; gate.entered.load(Ordering::SeqCst), 3);
    Ok(())
}
