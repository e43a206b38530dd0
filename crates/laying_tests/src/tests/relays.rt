//! Parts of one frame worked out by hand: frames of MPEG-1, 44,100 Hz and 128 kbit/s in two channels have 417 bytes and an area of
//! 381 (ISO/IEC 11172-3, 2.4.3.1), a lead-in at 32 kbit/s 104 bytes and an area of 68.
ghost use Rattle.std.specs.Prelude.{◌<◌};

use cut_edits::{Chosen, plan_file};
use laying::{Kept, Relay, RelayBuffers};
use outside::{Folder, MemFolder, Pass, PassFault};
use std::alloc::{AllocError, AllocGlobal, Global};
use std::process::Abort;
use std::test::Fail;
use sync_survey::survey;
use test_files::files::Stretch::{Bytes, Fill, Filled};
use test_files::files::{ID3V1, OF_300, OF_400, Stretch, bytes_of};
use test_files::{end_to_end, table};

/// The header of an ID3v2 block of 7,010 bytes: its size is 54 * 128 + 88 (ID3v2.3.0, 3.1).
const LONG_BLOCK: Stretch = Bytes(b"ID3\x03\x00\x00\x00\x00\x36\x58");

/// An ID3v2 block of 14 bytes.
const SHORT_BLOCK: Stretch = Bytes(b"ID3\x03\x00\x00\x00\x00\x00\x04abcd");

/// The rest of an ID3v1 block after its first 3 bytes.
const LAST_REST: Stretch = Fill(0x66, 125);

/// A block before two frames, and two after them.
const BLOCKS: &[Stretch] = &end_to_end! {
    LONG_BLOCK, Fill(0x44, 3000), Fill(0x55, 4000), OF_300, Fill(0x11, 300), Fill(0x22, 81),
    OF_300, Fill(0x11, 300), Fill(0x22, 81),
    SHORT_BLOCK, ID3V1, LAST_REST
};

/// The header of an Info frame: 64 kbit/s is the lowest bit rate whose frames, of 208 bytes, hold its 192 bytes.
const INFO_HEADER: Stretch = Bytes(&[0xff, 0xfb, 0x50, 0x00]);

/// The text of the Info frame of one frame at byte 36, the flags of all four fields, how many frames follow, and how many bytes there
/// are with the Info frame: 208 and 417.
const ONE_FRAME: Stretch = Bytes(b"Info\x00\x00\x00\x0f\x00\x00\x00\x01\x00\x00\x02\x71");

/// The same for a lead-in and a frame, 208, 104 and 417 bytes, whose bit rates differ.
const TWO_FRAMES: Stretch = Bytes(b"Xing\x00\x00\x00\x0f\x00\x00\x00\x02\x00\x00\x02\xd9");

/// The same blocks, around an Info frame and the first frame, whose area has zeros after its main data. The seek table says where
/// the frame begins, in 256ths of all bytes: 208 * 256 / 625 is 85.
const FIRST: &[Stretch] = &end_to_end! {
    LONG_BLOCK, Fill(0x44, 3000), Fill(0x55, 4000),
    INFO_HEADER, Fill(0, 32), ONE_FRAME, Fill(85, 100), Fill(0, 56),
    OF_300, Fill(0x11, 300), Fill(0, 81),
    SHORT_BLOCK, ID3V1, LAST_REST
};

/// Main data of 300 bytes, and of 400 that begin right after them, 81 bytes before the second area. main_data_begin is the
/// first 9 bits of the side information, and the number of bits of the first channel's main data is in its bits 21 to 32.
const TWO: &[Stretch] = &end_to_end! {
    OF_300, Fill(0x11, 300), Fill(0x22, 81),
    OF_400, Fill(0x22, 319), Fill(0x33, 62)
};

/// The second frame alone: 68 of its bytes are in the lead-in's area, and the other 332 in its own. The lead-in begins at 208 * 256 / 729,
/// which is 73, and the frame at 312 * 256 / 729, which is 109.
const SECOND: &[Stretch] = &end_to_end! {
    INFO_HEADER, Fill(0, 32), TWO_FRAMES, Fill(73, 50), Fill(109, 50), Fill(0, 56),
    Filled(&[0xff, 0xfb, 0x10, 0x00], 0, 32), Fill(0x22, 68),
    Filled(&[0xff, 0xfb, 0x90, 0x00, 0x22, 0x00, 0x0c, 0x80], 0, 28), Fill(0x22, 332), Fill(0, 49)
};

/// A file of two frames, which of them is laid, and the output with its length.
struct Case {
    name: &'static str,
    input: &'static [Stretch],
    frame: usize,
    output: &'static [Stretch],
    length: u64,
}

static CASES: [Case; 2] = table! {
    Case { name, input, frame, output, length }
    ("the first frame between blocks", BLOCKS, 0, FIRST, 7777)
    ("the second frame alone", TWO, 1, SECOND, 729)
};

/// Lays one of two frames, in its own slot.
#[tactic(auto, using(outside::proofs::FilesLemmas::emptied_there))]
fn lay_frame<R: Abort + AllocGlobal, D: Folder>(
    rt: &R,
    folder: &mut D,
    frame: usize,
) -> Result<Result<(), PassFault>, AllocError>
    requires one { frame < 2 }
{
    let Ok(()) = folder.create("b") else {
        panic!(rt; "no output");
    };
    let Ok(survey) = survey(rt.alloc(), folder, "a", 2) else {
        panic!(rt; "no survey");
    };
    assert!(rt; survey.frames().len() == 2);
    let chosen = Chosen {
        from: frame,
        to: frame + 1,
        kept: Kept::none(),
    };
    let selected = plan_file(rt.alloc(), &survey, &chosen, false)?;
    let mut buffers = RelayBuffers::new(rt.alloc(), survey.class())?;
    let pass = Pass {
        input: "a",
        output: "b",
        length: survey.length(),
    };
    let relay = Relay {
        pass,
        survey: &survey,
    };
    Ok(relay.write(folder, &selected, &mut buffers))
}

/// Puts the input as `a`, and room for the output `b`.
fn put_files(alloc: Global, folder: &mut MemFolder, case: &Case) -> Result<(), AllocError> {
    folder.put("a", &bytes_of(alloc, case.input)?)?;
    folder.put("b", &[])?;
    folder.reserve("b", case.length)
}

/// Whether `b` is the output.
fn is_output(alloc: Global, folder: &MemFolder, case: &Case) -> Result<bool, AllocError> {
    let wanted = bytes_of(alloc, case.output)?;
    Ok(folder.get("b") == Some(wanted.as_slice()))
}

fn expect_output<R: Abort + AllocGlobal>(
    rt: &R,
    folder: &mut MemFolder,
    case: &Case,
) -> Result<(), AllocError> {
    put_files(rt.alloc(), folder, case)?;
    assert!(rt; case.frame < 2);
    assert!(rt; lay_frame(rt, folder, case.frame)?.is_ok(), "{}", case.name);
    assert!(rt; is_output(rt.alloc(), folder, case)?, "{}", case.name);
    Ok(())
}

/// Owns the folder and ends in one place; everything else borrows it: at each end of its owner the folder is dropped, which costs
/// the check much.
fn expect_case<R: Abort + AllocGlobal>(rt: &R, case: &Case) -> Result<(), AllocError> {
    let mut folder = MemFolder::new(rt.alloc());
    expect_output(rt, &mut folder, case)
}

#[test]
fn one_of_two_frames(rt: HostRuntime) -> Result<(), Fail> {
    for case in &CASES {
        expect_case(&rt, case)?;
    }
    Ok(())
}
