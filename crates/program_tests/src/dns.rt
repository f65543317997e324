//! DNS names at every place, queries of any id, choices, and a chain of pointers that is too long for a line of a case.

use crate::memory::is_out_of_memory;
use amt_dns::{DnsFault, Found, FoundList, Relay, choose, read_answer};
use amt_dns_names::{read_name, reverse_name, write_query};
use amt_values::{Bytes, Ip};
use std::alloc::{AllocError, Global};
use std::process::Abort;

// 198.51.100.9, and the head and question of an answer for it that counts two records.
const SOURCE: Ip = Ip::V4(0xc633_6409);

const BEGINNING: &[u8] =
    b"\x00\x00\x81\x80\x00\x01\x00\x02\x00\x00\x00\x00\x019\x03100\x0251\x03198\x07in-addr\x04arpa\x00\x01\x04\x00\x01";

// The query for it, with the id 1234 in hexadecimal digits.
const QUERY: &[u8] =
    b"\x12\x34\x01\x00\x00\x01\x00\x00\x00\x00\x00\x00\x019\x03100\x0251\x03198\x07in-addr\x04arpa\x00\x01\x04\x00\x01";

// A label of three octets that look like a name, and its end; a pointer to within it, and one to itself; the
// last octet begins a label that isn't there.
const OCTETS: &[u8] = b"\x03\x01a\x00\x00\xc0\x01\xc0\x07\x02";

// A place in these octets, and the octets of the name there with its end, if one stands there.
const NAMES: [(u32, Option<(&[u8], u32)>); 12] = [
    (0, Some((b"\x03\x01a\x00\x00", 5))),
    (1, Some((b"\x01a\x00", 4))),
    (2, None),
    (3, Some((b"\x00", 4))),
    (4, Some((b"\x00", 5))),
    (5, Some((b"\x01a\x00", 7))),
    (6, None),
    (7, None),
    (8, None),
    (9, None),
    (10, None),
    (u32::MAX, None),
];

// Precedences, and the place of the one that is chosen.
const CHOICES: [(&[u8], Option<u32>); 6] = [
    (&[], None),
    (&[255], Some(0)),
    (&[10, 5, 7, 5], Some(1)),
    (&[5, 5], Some(0)),
    (&[1, 2, 3], Some(0)),
    (&[3, 2, 0], Some(2)),
];

fn check_names(rt: &impl Abort, alloc: Global) -> Result<(), AllocError> {
    for (place, wanted) in NAMES {
        match (read_name(alloc, OCTETS, place)?, wanted) {
            (Some(read), Some((octets, end))) => {
                assert_eq!(rt; read.name.wire(alloc)?.as_slice(), octets);
                assert_eq!(rt; read.end, end);
            }
            (read, wanted) => assert!(rt; read.is_none() && wanted.is_none()),
        }
    }
    Ok(())
}

fn check_choices(rt: &impl Abort, alloc: Global) -> Result<(), AllocError> {
    for (precedences, wanted) in CHOICES {
        let mut found = FoundList::new(alloc);
        for precedence in precedences {
            found.push(Found {
                precedence: *precedence,
                direct: false,
                relay: Relay::None,
            })?;
        }
        assert!(rt; found.len() <= 4);
        assert_eq!(rt; choose(&found), wanted);
    }
    Ok(())
}

// An answer of a record of another type, with 8,164 pointers in its data, each but the first to the two octets before
// it, and of a relay whose owner is a pointer to the last of them.
fn chained_answer(alloc: Global) -> Result<Bytes, AllocError> {
    let mut answer = Bytes::copied(alloc, BEGINNING)?;
    answer.append(b"\xc0\x0c\x00\x01\x00\x01\x00\x00\x00\x3c\x3f\xc8\xc0\x0c")?;
    for place in 27..8190u16 {
        answer.append(&(0xc001 + 2 * place).to_be_bytes())?;
    }
    answer.append(b"\xff\xfd\x01\x04\x00\x01\x00\x00\x00\x3c\x00\x06\x0a\x01\xc0\x00\x02\x01")?;
    Ok(answer)
}

fn check_chain(rt: &impl Abort, alloc: Global) -> Result<(), DnsFault> {
    let (Ok(name), Ok(answer)) = (reverse_name(alloc, &SOURCE), chained_answer(alloc)) else {
        return Err(DnsFault::Memory);
    };
    assert!(rt; answer.len() <= 65_535);
    let found = read_answer(alloc, answer.as_slice(), 0, &name)?;
    assert_eq!(rt; found.len(), 1);
    for one in found.as_slice() {
        assert_eq!(rt; one.precedence, 10);
        assert!(rt; !one.direct);
        match one.relay {
            Relay::At(ip) => assert_eq!(rt; ip, Ip::V4(0xc000_0201)),
            _ => assert!(rt; false, "another relay"),
        }
    }
    Ok(())
}

fn check_query(rt: &impl Abort, alloc: Global) -> Result<(), AllocError> {
    let name = reverse_name(alloc, &SOURCE)?;
    let query = write_query(alloc, 0x1234, &name)?;
    assert_eq!(rt; query.as_slice(), QUERY);
    Ok(())
}

#[test]
fn a_name_is_read_exactly_where_one_stands(rt: HostRuntime) {
    if check_names(&rt, rt.alloc()).is_err() {
        is_out_of_memory(&rt, "a name");
    }
}

#[test]
fn a_query_has_its_id(rt: HostRuntime) {
    if check_query(&rt, rt.alloc()).is_err() {
        is_out_of_memory(&rt, "a query");
    }
}

#[test]
fn the_first_of_the_least_precedence_is_chosen(rt: HostRuntime) {
    if check_choices(&rt, rt.alloc()).is_err() {
        is_out_of_memory(&rt, "a list of relays");
    }
}

#[test]
fn a_chain_of_8164_pointers_is_followed(rt: HostRuntime) {
    if check_chain(&rt, rt.alloc()).is_err() {
        is_out_of_memory(&rt, "an answer, or it was refused");
    }
}
