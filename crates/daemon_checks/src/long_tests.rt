//! Runs of the greatest lengths.
use crate::crews::CrewRun;
use crate::cut_tests::serving;
use crate::fakes::{Scene, Wire};
use crate::tests::{RUN, SCENE, WIRE, is_told};
use gt_base::Memory;
use std::alloc::Global;
use std::sync::Wait;
use std::test::Fail;
use std::thread::Threads;

const SPENT: &[u8] = b"| spent, asked 0, denied 0
1 links, done
born 2026-01-05T10:00
status 0
";

const ENDED: &[u8] = b"1 links, done
born 2026-01-05T10:00
status 0
";

/// Whether a link that sends these bytes is told so.
fn is_sent<R: Threads + Wait + Sync>(
    rt: &R,
    alloc: Global,
    sends: &[u8],
    told: &[u8],
) -> Result<bool, Memory> {
    let wires = [Wire { sends, ..WIRE }];
    is_told(rt, alloc, &serving(&wires), &[told])
}

/// 67,108,865 line feeds, and 67,108,863.
#[test]
fn a_link_is_cut_at_its_last_byte(rt: HostRuntime) -> Result<(), Fail> {
    let mut sends = vec![in rt.alloc(); b'\n'; 67_108_865]?;
    assert!(rt; is_sent(&rt, rt.alloc(), &sends, SPENT)?);
    sends.truncate(67_108_863);
    assert!(rt; is_sent(&rt, rt.alloc(), &sends, ENDED)?);
    Ok(())
}

const ENOUGH: &[u8] = b"100000 links, enough
born 2026-01-05T10:00
status 11
";

#[test]
fn a_worker_serves_so_many_links_and_no_more(rt: HostRuntime) -> Result<(), Fail> {
    let wires = vec![in rt.alloc(); WIRE; 100_001]?;
    assert!(rt; is_told(&rt, rt.alloc(), &serving(&wires), &[ENOUGH])?);
    Ok(())
}

const TOO_LONG: &[u8] = b"0 links, fresh
too long: policy
status 6
";

#[test]
fn a_long_policy_is_told(rt: HostRuntime) -> Result<(), Fail> {
    let policy = vec![in rt.alloc(); b'\n'; 4_194_305]?;
    let scene = Scene {
        policy: &policy,
        ..SCENE
    };
    let run = CrewRun { scene, ..RUN };
    assert!(rt; is_told(&rt, rt.alloc(), &run, &[TOO_LONG])?);
    Ok(())
}
