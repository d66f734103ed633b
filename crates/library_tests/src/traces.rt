//! A trace that is parsed as a whole: its configuration, and the value of each kind of line.
use bus_window::Window;
use std::process::Abort;
use std::test::Fail;
use storage_prot::Want;
use trace_line::{Act, TraceLine};
use trace_read::{Config, parse};

/// Each kind of line once, and some in two spellings.
const WHOLE: &str = "order 19
limit 20
cpus 2
pool 0x2000000000 20
ram 0 0x100000 0x10000
io 0x10000 0x200000 0x1000
entry old 0x20 0000000000001001000000000000a192
# begin
entry\tnew 0x7fff 00000000000010030400000000002012
window 1 0x5000 2
window 2 0 1
begin
1 H_ENTER 0x0 0X20 0x1001 4096\r

0 hcall 0x36C 1
1 load 0x5000 user
0 store 1 priv
0 fetch 1 priv
1 H_PUT_TCE 1 0x5000 0x3001
1 H_GET_TCE 1 0x5000
0 dmaread 1 0x5008
1 dmawrite 2 0
0 slbmte 0x8000000 0x1000
0 slbclear
 \tdump";

fn call(number: u64, args: [u64; 8], spelt: bool) -> Act {
    Act::Call {
        number,
        args,
        spelt,
    }
}

fn access(want: Want, ea: u64, user: bool) -> Act {
    Act::Access { want, ea, user }
}

fn device(write: bool, liobn: u64, ioba: u64) -> Act {
    Act::Device { write, liobn, ioba }
}

/// The settings of [`WHOLE`], and how many grants it has.
fn check_settings(rt: &impl Abort, config: &Config) {
    assert_eq!(rt; (config.order, config.limit, config.cpus), (19, 20, 2));
    assert_eq!(rt; (config.pool_base, config.pool_order), (0x20_0000_0000, 20));
    assert_eq!(rt; config.grants.list().len(), 2);
}

/// The entries of [`WHOLE`].
fn check_entries(rt: &impl Abort, config: &Config) {
    let entries = config.entries.as_slice();
    let expected = [
        (0x20, 0x1001, 0xa192),
        (0x7fff, 0x4000_0000_0000_1003, 0x2012),
    ];
    assert_eq!(rt; entries.len(), expected.len());
    for (entry, words) in entries.iter().zip(expected) {
        assert_eq!(rt; (entry.index, entry.dword0, entry.dword1), words);
    }
}

/// The windows of [`WHOLE`].
fn check_windows(rt: &impl Abort, config: &Config) {
    let windows = config.windows.as_slice();
    assert_eq!(rt; windows.len(), 2);
    assert_eq!(rt; Some(windows[0]), Window::new(1, 0x5000, 2));
    assert_eq!(rt; Some(windows[1]), Window::new(2, 0, 1));
}

#[test]
fn the_configuration_is_read(rt: HostRuntime) -> Result<(), Fail> {
    let trace = parse(rt.alloc(), WHOLE.as_bytes())?;
    check_settings(&rt, &trace.config);
    check_entries(&rt, &trace.config);
    check_windows(&rt, &trace.config);
    Ok(())
}

/// The run lines of [`WHOLE`].
fn check_lines(rt: &impl Abort, lines: &[TraceLine]) {
    let segment = Act::SlbMte {
        rb: 0x800_0000,
        rs: 0x1000,
    };
    let expected = [
        (13, 1, call(8, [0, 0x20, 0x1001, 4096, 0, 0, 0, 0], true)),
        (15, 0, call(0x36C, [1, 0, 0, 0, 0, 0, 0, 0], false)),
        (16, 1, access(Want::Load, 0x5000, true)),
        (17, 0, access(Want::Store, 1, false)),
        (18, 0, access(Want::Fetch, 1, false)),
        (19, 1, call(0x20, [1, 0x5000, 0x3001, 0, 0, 0, 0, 0], true)),
        (20, 1, call(0x1C, [1, 0x5000, 0, 0, 0, 0, 0, 0], true)),
        (21, 0, device(false, 1, 0x5008)),
        (22, 1, device(true, 2, 0)),
        (23, 0, segment),
        (24, 0, Act::SlbClear),
        (25, 0, Act::Dump),
    ]
    .map(|(number, cpu, act)| TraceLine { number, cpu, act });
    assert_eq!(rt; lines, expected.as_slice());
}

#[test]
fn each_kind_of_line_is_read(rt: HostRuntime) -> Result<(), Fail> {
    let trace = parse(rt.alloc(), WHOLE.as_bytes())?;
    check_lines(&rt, trace.lines.as_slice());
    Ok(())
}

/// The numbers of windows, in their order.
fn check_numbers(rt: &impl Abort, windows: &[Window], expected: &[u32]) {
    assert_eq!(rt; windows.len(), expected.len());
    for (window, liobn) in windows.iter().zip(expected) {
        assert_eq!(rt; window.liobn(), *liobn);
    }
}

#[test]
fn four_windows_stand_in_the_order_of_their_lines(rt: HostRuntime) -> Result<(), Fail> {
    let input = "window 9 0 1\n#\nwindow 3 0 1\nwindow 7 0x1000 1\nwindow 4 0 2\nbegin\n";
    let trace = parse(rt.alloc(), input.as_bytes())?;
    check_numbers(&rt, trace.config.windows.as_slice(), &[9, 3, 7, 4]);
    Ok(())
}
