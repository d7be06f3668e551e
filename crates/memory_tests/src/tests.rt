// The examples.
use crate::{look, put, settle};
use memory::{BLANK, Memory};
use store::{Answer, Ask, World};

// Carries out an example on fresh disks in memory, with this script.
fn on_disks<F: FnOnce(&mut Memory)>(script: &[u64], example: F)
    requires { F.IsAlwaysCallable example }
{
    let mut cells = [BLANK; 2048];
    let mut log = [0; 4096];
    let mut m = Memory::new(&mut cells, &mut log, script);
    example(&mut m);
}

// The word that a sector of disk 0 holds, or none where it can't be read.
fn word_at(m: &mut Memory, s: u64) -> Option<u64> {
    let mut into = [0; 64];
    let mut room = [0; 4];
    match look(m, 0, s, &mut into, &mut room) {
        Answer::Fine => Some(into[63]),
        _ => None,
    }
}

// Eight sectors are written before a sync and after it.
fn written_twice(m: &mut Memory) {
    for s in 0..8 {
        let _ = put(m, 0, s, s + 1);
    }
    let _ = settle(m);
    for s in 0..8 {
        let _ = put(m, 0, s, s + 101);
    }
}

#[test]
fn a_cut_leaves_what_was_drawn(rt: HostRuntime) {
    on_disks(&[], |m| {
        written_twice(m);
        assert_eq!(rt; word_at(m, 2), Some(103));
        assert!(rt; m.plan_cut(2, 1234).is_ok());
        assert_eq!(rt; word_at(m, 0), Some(101));
        assert_eq!(rt; word_at(m, 0), None);
        let old = [true, true, false, false, false, true, true, false];
        for (s, is_old) in old.into_iter().enumerate() {
            // there is no `From` of a `usize`
            let s = s as u64;
            let left = if is_old { s + 1 } else { s + 101 };
            assert_eq!(rt; word_at(m, s), Some(left));
        }
    });
}

#[test]
fn a_sync_makes_it_last(rt: HostRuntime) {
    on_disks(&[], |m| {
        written_twice(m);
        let _ = settle(m);
        assert!(rt; m.plan_cut(1, 1234).is_ok());
        assert_eq!(rt; word_at(m, 0), None);
        for s in 0..8 {
            assert_eq!(rt; word_at(m, s), Some(s + 101));
        }
        assert_eq!(rt; word_at(m, 8), Some(0));
    });
}

#[test]
fn a_write_lasts_at_once(rt: HostRuntime) {
    on_disks(&[], |m| {
        let _ = put(m, 0, 0, 1);
        let _ = settle(m);
        let _ = put(m, 0, 0, 2);
        assert!(rt; m.plan_cut(4, 1234).is_ok());
        let _ = put(m, 0, 0, 3);
        assert_eq!(rt; word_at(m, 0), Some(3));
        assert_eq!(rt; word_at(m, 0), Some(3));
        assert_eq!(rt; word_at(m, 0), None);
        assert_eq!(rt; word_at(m, 0), Some(2));
    });
}

#[test]
fn no_third_dies(rt: HostRuntime) {
    on_disks(&[], |m| {
        assert!(rt; m.kill(0).is_ok());
        assert!(rt; m.kill(0).is_err());
        assert!(rt; m.kill(3).is_ok());
        assert!(rt; m.kill(1).is_err());
        assert!(rt; m.kill(4).is_ok() && m.kill(15).is_ok() && m.kill(16).is_err());
        m.restart();
        assert!(rt; m.kill(1).is_ok());
    });
}

#[test]
fn a_planned_death_comes(rt: HostRuntime) {
    on_disks(&[], |m| {
        assert!(rt; m.plan_death(0, 2).is_ok() && m.plan_death(0, 3).is_ok());
        assert_eq!(rt; word_at(m, 5), Some(0));
        assert_eq!(rt; word_at(m, 5), None);
        assert_eq!(rt; m.spared(), 0);
        assert_eq!(rt; word_at(m, 5), None);
        assert_eq!(rt; m.spared(), 1);
    });
}

#[test]
fn the_script_is_asked(rt: HostRuntime) {
    let script = [2, 3, 5, 7, 0, 2, 0, 0, 7, 0, 1, 0, 6, 1, 2, 9];
    on_disks(&script, |m| {
        let mut words = [0; 64];
        // `Ask` can only be copied, so it is matched.
        assert!(rt; matches!(m.next(&mut words), Some((3, Ask::Write(5)))));
        assert!(rt; words[0] == 7 && words[63] == 7);
        assert!(rt; m.next(&mut words).is_none());
        assert!(rt; m.next(&mut words).is_none());
        assert!(rt; m.next(&mut words).is_none());
        assert!(rt; matches!(m.next(&mut words), Some((1, Ask::Replace(2, 9)))));
        assert!(rt; m.next(&mut words).is_none());
        assert_eq!(rt; word_at(m, 5), None);
    });
}
