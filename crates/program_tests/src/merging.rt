//! What no script shows: filters that list addresses of both families, and a copy of sockets beside the sockets that
//! it was made of.

ghost use Rattle.std.specs.Prelude.{◌≡◌, true, All};
ghost use Rattle.group_records.specs.{Written.{is_of_family}, declared.family.Family.TheVariants.{V4}};

use Mode::{Exclude, Include};
use amt_values::{Ip, Moment, forwardable};
use group_records::ITEM_LIMIT;
use socket_merge::Sockets;
use source_filter::{Filter, Mode, merge};
use std::alloc::{AllocError, Global};
use std::process::Abort;

// 239.1.1.1, 198.51.100.1 to 3, and 2001:db8::1.
const GROUP: Ip = Ip::V4(0xef01_0101);

const A: Ip = Ip::V4(0xc633_6401);

const B: Ip = Ip::V4(0xc633_6402);

const C: Ip = Ip::V4(0xc633_6403);

const WIDE: Ip = Ip::V6(0x2001_0db8_0000_0000_0000_0000_0000_0001);

// A filter as tests write it: its mode and its sources.
type Sketch<'a> = (Mode, &'a [Ip]);

// Filters, and the one of them all; IPv4 addresses come first.
const MERGES: [(&[Sketch<'static>], Sketch<'static>); 4] = [
    (&[], (Include, &[])),
    (
        &[(Exclude, &[A, B]), (Exclude, &[C, B]), (Include, &[B])],
        (Exclude, &[]),
    ),
    (
        &[(Include, &[WIDE, B, WIDE]), (Include, &[A])],
        (Include, &[A, B, WIDE]),
    ),
    (
        &[(Exclude, &[WIDE, A]), (Include, &[WIDE])],
        (Exclude, &[A]),
    ),
];

fn merged(alloc: Global, sketches: &[Sketch]) -> Result<Filter, AllocError> {
    let mut filters = Vec::new(alloc);
    for (mode, sources) in sketches {
        filters.push(Filter::new(alloc, *mode, sources)?)?;
    }
    merge(alloc, &filters)
}

fn is_sketched(rt: &impl Abort, answer: Result<Filter, AllocError>, sketch: &Sketch) {
    match answer {
        Ok(filter) => {
            let is = filter.mode() == sketch.0 && filter.sources() == sketch.1;
            assert!(rt; is, "{filter:?} {sketch:?}");
        }
        Err(_) => assert!(rt; false, "out of memory"),
    }
}

#[test]
fn a_merged_filter_wants_what_some_filter_wants(rt: HostRuntime) {
    for (sketches, wanted) in &MERGES {
        is_sketched(&rt, merged(rt.alloc(), sketches), wanted);
    }
}

fn is_ipv4(address: &Ip) -> bool
    ensures { result ≡ is_of_family V4 address.now }
{
    match *address {
        Ip::V4(_) => true,
        Ip::V6(_) => false,
    }
}

fn are_ipv4(addresses: &[Ip]) -> bool
    ensures { result ≡ true → All (λ address. is_of_family V4 address ≡ true) addresses.now }
{
    addresses.iter().all(|address| is_ipv4(address))
}

fn moment(rt: &impl Abort, ms: u64) -> Moment {
    Moment::new(ms).expect(rt, "moments are below 2^62")
}

// Opens a socket of 239.1.1.1.
fn open(rt: &impl Abort, alloc: Global, sockets: &mut Sockets, name: &[u8], filter: &Filter) {
    assert!(rt; forwardable(&GROUP) && are_ipv4(filter.sources()));
    assert!(rt; filter.sources().len() <= ITEM_LIMIT);
    let answer = sockets.open(alloc, name, &GROUP, filter, &moment(rt, 0));
    assert_eq!(rt; answer, Ok(()));
}

const SOCKETS: [(&[u8], Mode, &[Ip]); 3] = [
    (b"a", Exclude, &[A, B]),
    (b"b", Exclude, &[B, C]),
    (b"c", Include, &[B]),
];

fn opened(rt: &impl Abort, alloc: Global) -> Result<Sockets, AllocError> {
    let mut sockets = Sockets::new(alloc)?;
    for (name, mode, sources) in &SOCKETS {
        let filter = Filter::new(alloc, *mode, sources)?;
        open(rt, alloc, &mut sockets, name, &filter);
    }
    Ok(sockets)
}

fn has(rt: &impl Abort, alloc: Global, sockets: &Sockets, wanted: &Sketch, wants_b: bool) {
    is_sketched(rt, sockets.interface(alloc, &GROUP), wanted);
    assert_eq!(rt; sockets.admits(&GROUP, &B), wants_b, "{wanted:?}");
    assert!(rt; sockets.admits(&GROUP, &A) && !sockets.admits(&A, &A));
}

fn close_the_third(rt: &impl Abort, sockets: &mut Sockets) {
    assert!(rt; sockets.close(b"c", &moment(rt, 1)).is_ok());
}

fn copy_and_close(rt: &impl Abort, alloc: Global) -> Result<(), AllocError> {
    let mut sockets = opened(rt, alloc)?;
    let mut copy = sockets.copy_all(alloc)?;
    close_the_third(rt, &mut sockets);
    has(rt, alloc, &copy, &(Exclude, &[]), true);
    has(rt, alloc, &sockets, &(Exclude, &[B]), false);
    close_the_third(rt, &mut copy);
    has(rt, alloc, &copy, &(Exclude, &[B]), false);
    Ok(())
}

#[test]
fn a_copy_of_sockets_stays_as_it_is_until_it_is_changed(rt: HostRuntime) {
    assert!(rt; copy_and_close(&rt, rt.alloc()).is_ok());
}
