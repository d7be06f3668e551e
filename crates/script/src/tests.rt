// Each kind of line, and each mistake.
use super::{Command, parse};

#[test]
fn commands(rt: HostRuntime) {
    let table: [(&[u8], Command); 21] = [
        (
            b"0 write 5 7a",
            Command::Write {
                tag: 0,
                sector: 5,
                byte: 0x7a,
            },
        ),
        (
            b"0 write 5 09",
            Command::Write {
                tag: 0,
                sector: 5,
                byte: 9,
            },
        ),
        (b"0 read 5", Command::Read { tag: 0, sector: 5 }),
        (b"1 flush", Command::Flush { tag: 1 }),
        (b"1 size", Command::Size { tag: 1 }),
        (b"2 add 4", Command::Add { tag: 2, disk: 4 }),
        (
            b"2 replace 1 5",
            Command::Replace {
                tag: 2,
                old: 1,
                new: 5,
            },
        ),
        (b"turn 20", Command::Turn { turns: 20 }),
        (b"turn 0", Command::Turn { turns: 0 }),
        (b"die 3", Command::Die { disk: 3 }),
        (b"die 3 50", Command::DieAt { disk: 3, ask: 50 }),
        (b"cut 9 1234", Command::Cut { ask: 9, seed: 1234 }),
        (b"cut 1 0", Command::Cut { ask: 1, seed: 0 }),
        (b"until 2", Command::Until { tag: 2 }),
        (b"new", Command::New),
        (b"  007   read  05  ", Command::Read { tag: 7, sector: 5 }),
        (b"die 16", Command::Die { disk: 16 }),
        (b"4294967295 size", Command::Size { tag: u32::MAX }),
        (
            b"turn 18446744073709551615",
            Command::Turn { turns: u64::MAX },
        ),
        (
            b"turn 0000000000000000000000000000007",
            Command::Turn { turns: 7 },
        ),
        (
            b"9 write 18446744073709551615 ff",
            Command::Write {
                tag: 9,
                sector: u64::MAX,
                byte: 255,
            },
        ),
    ];
    for (line, command) in table {
        assert_eq!(rt; parse(line), Some(command));
    }
}

#[test]
fn mistakes(rt: HostRuntime) {
    let table: [&[u8]; 36] = [
        b"",
        b"   ",
        b"hello",
        b"NEW",
        b"news",
        b"new new",
        b"turn",
        b"turn 1 2",
        b"until",
        b"read 5",
        b"0 read",
        b"0 read 5 5",
        b"0 write 5",
        b"0 write 5 7a 7a",
        b"cut 9",
        b"2 replace 1",
        b"die read 5",
        b"0 write 5 7A",
        b"0 write 5 7",
        b"0 write 5 07a",
        b"0 write 5 7g",
        b"turn -1",
        b"turn +1",
        b"turn 1a",
        b"turn 0x10",
        b"4294967296 size",
        b"die 4294967296",
        b"turn 18446744073709551616",
        b"turn 18446744073709551620",
        b"turn 100000000000000000000000000000000000000",
        b"cut 0 1234",
        b"die 3 0",
        b"0\tread 5",
        b"new\r",
        b"n\xc3\xa9w",
        b"new\0",
    ];
    for line in table {
        assert_eq!(rt; parse(line), None);
    }
}

#[test]
fn long_lines(rt: HostRuntime) {
    let mut line = [b' '; 256];
    line[0] = b'n';
    line[1] = b'e';
    line[2] = b'w';
    assert_eq!(rt; parse(&line[0..255]), Some(Command::New));
    assert_eq!(rt; parse(&line), None);
}
