use crate::line::Line;
use crate::reading::read_lines;
use crate::reply::Reply;
use crate::running::run_lines;
use crate::showing::tell_line;
use crate::transcript::transcript;
use listed::Listed;
use replay::calls::{Answer, Call};
use std::alloc::AllocError;

#[test]
fn lines_read(rt: HostRuntime) -> Result<(), AllocError> {
    let texts = [b"# a remark".as_slice(), b"slack 7", b"slack", b""];
    let lines = read_lines(rt.alloc(), &texts)?;
    assert_eq!(rt; lines.len(), 4);
    assert!(rt; matches!(lines[0], Line::Blank));
    assert!(rt; matches!(lines[1], Line::Plain(Call::Slack(7))));
    assert!(rt; matches!(lines[2], Line::Unread));
    assert!(rt; matches!(lines[3], Line::Blank));
    Ok(())
}

// Lines that are no call are passed over, a fabric too.
#[test]
fn lines_run(rt: HostRuntime) -> Result<(), AllocError> {
    let texts = [
        b"offer task 1 0 4 0 1".as_slice(),
        b"slack",
        b"fabric mesh 2 1 3",
        b"",
        b"holder core 0 4",
    ];
    let lines = read_lines(rt.alloc(), &texts)?;
    let answers = run_lines(rt.alloc(), &Listed::new(), &lines)?;
    assert_eq!(rt; answers.len(), 2);
    assert!(rt; matches!(answers[0], Answer::TaskOffered(Ok(()))));
    assert!(rt; matches!(answers[1], Answer::Holder(Ok(Some((1, 1))))));
    Ok(())
}

#[test]
fn line_told(rt: HostRuntime) -> Result<(), AllocError> {
    let mut out = Vec::new(rt.alloc());
    tell_line(rt.alloc(), &mut out, b"twelve", &Reply::Unread)?;
    let ready = Reply::Ready {
        nodes: 6,
        links: 14,
    };
    tell_line(rt.alloc(), &mut out, b"fabric mesh 3 2 1", &ready)?;
    assert_eq!(rt;
        out.as_slice(),
        b"twelve: UNREAD\nfabric mesh 3 2 1: READY 6 14\n".as_slice()
    );
    Ok(())
}

// A refused fabric leaves the plan, a taken one begins a new plan; blank lines print nothing.
#[test]
fn script_told(rt: HostRuntime) -> Result<(), AllocError> {
    let script =
        b"offer task 1 0 4 0 1\n\nfabric mesh 0 1 1\nholder core 0 4\nfabric mesh 2 1 3\n# a remark\nholder core 0 4\nwrite\n";
    let out = transcript(rt.alloc(), script)?;
    assert_eq!(rt;
        out.as_slice(),
        b"offer task 1 0 4 0 1: TAKEN\nfabric mesh 0 1 1: REFUSED 3 HEAD\nholder core 0 4: HELD 1 1\nfabric mesh 2 1 3: READY 2 8\nholder core 0 4: FREE\nwrite: UNREAD\n".as_slice()
    );
    Ok(())
}
