use report_text::{print_acted, print_pending, print_report, print_taken};
use std::test::Fail;
use usb_base::{DevAddr, EndCause, EpName, EpNum, MemSink, OfferError, Report, Way, What};

fn endpoint() -> Result<EpName, Fail> {
    let addr = DevAddr::new(3).ok_or("address")?;
    let num = EpNum::new(1).ok_or("number")?;
    Ok(EpName {
        addr,
        num,
        way: Way::In,
    })
}

#[test]
fn prints_reports(rt: HostRuntime) -> Result<(), Fail> {
    let name = endpoint()?;
    let refused = What::Refused {
        line: 9,
        why: OfferError::NoEndpoint,
    };
    let reports = [
        Report {
            name,
            what: What::Done,
            from: 0,
            len: 4,
        },
        Report {
            name,
            what: What::Halt(EndCause::Babble),
            from: 4,
            len: 0,
        },
        Report {
            name,
            what: What::Iso { errors: 2 },
            from: 3,
            len: 2,
        },
        Report {
            name,
            what: refused,
            from: 0,
            len: 0,
        },
    ];
    let mut sink = MemSink::build(rt.alloc(), 4_096, &[])?;
    print_report(&reports, &[1, 2, 3, 4, 0xff], &mut sink)?;
    print_pending(&name, 1, &mut sink)?;
    print_taken(&name, &[5, 0xff], &mut sink)?;
    print_acted(&name, 3, &mut sink)?;
    let text =
        b"done 3.1.in 4 01020304\nhalt 3.1.in babble 0 -\niso 3.1.in 2 04ff errors 2\nline 9: refused no-endpoint\npending 3.1.in 1\ntaken 3.1.in 2 05ff\nacted 3.1.in 3\n";
    assert_eq!(rt; sink.written(), text.as_slice());
    Ok(())
}

#[test]
fn tells_failed_writes(rt: HostRuntime) -> Result<(), Fail> {
    let name = endpoint()?;
    let reports = [Report {
        name,
        what: What::Done,
        from: 0,
        len: 600,
    }];
    let store = [0xab; 600];
    let mut sink = MemSink::build(rt.alloc(), 4_096, &[2])?;
    assert!(rt; print_report(&reports, &store, &mut sink).is_err());
    assert_eq!(rt; (sink.faults(), sink.written().len()), (1, 16 + 1_024));
    Ok(())
}
