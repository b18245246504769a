use crate::of_app_machine::program_of;
use app_ends::Status;
use std::alloc::Global;
use std::test::Fail;

const SUMMARY: &[u8] = b"load 1 endpoints 40 refused 0 done 40 halted 0 pending 0 bytes 102836\n";

// The load script of 1 is run twice with the same summary, and nothing of the input is read.
#[test]
fn load_of_one(rt: HostRuntime) -> Result<(), Fail> {
    for _time in 0..2 {
        let (status, written) = program_of(rt.alloc(), &["load", "1"], b"ehci 3\n", &[0], &[])?;
        assert_eq!(rt; status, Status::Ok);
        assert_eq!(rt; written.as_slice(), SUMMARY);
    }
    Ok(())
}

// Other words behind `load`.
#[test]
fn numbers_of_load(rt: HostRuntime) -> Result<(), Fail> {
    for words in [
        ["load", "01"],
        ["load", "1000000"],
        ["load", "-1"],
        ["load", "+1"],
        ["load", ""],
        ["load", "4294967297"],
        ["run", "1"],
    ] {
        let (status, written) = program_of(rt.alloc(), &words, b"", &[], &[])?;
        assert_eq!(rt; status, Status::Words);
        assert!(rt; written.is_empty());
    }
    Ok(())
}

// Each write of the summary fails in turn.
#[test]
fn each_write_of_a_summary_fails(rt: HostRuntime) -> Result<(), Fail> {
    for write in [0] {
        let (status, written) = program_of(rt.alloc(), &["load", "1"], b"", &[], &[write])?;
        assert_eq!(rt; status, Status::WriteFault);
        assert!(rt; SUMMARY.starts_with(written.as_slice()));
    }
    Ok(())
}
