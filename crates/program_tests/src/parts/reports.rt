//! The texts of the reports of runs. Each count is another number, so that none can stand for another. It knows
//! public calls alone.

use amt_ports::End;
use amt_values::Bytes;
use gateway_serving::GatewayServed;
use relay_serving::ServeReport;
use std::alloc::AllocError;

const RELAY: ServeReport = ServeReport {
    end: End::Turns,
    turns: 1_099_511_627_776,
    datagrams: 2,
    packets: 3,
    updated: 4,
    torn: 5,
    sent: 6,
    unsent: 7,
    inline: 8,
    starved: 9,
    late: 10,
    owed: 11,
    published: 12,
    apart: 13,
};

const GATEWAY: GatewayServed = GatewayServed {
    end: End::Closed,
    turns: 0,
    datagrams: 2,
    controls: 3,
    bad_controls: 4,
    delivered: 5,
    unsent: 6,
    starved: 7,
};

fn is_text(written: Result<Bytes, AllocError>, text: &str) -> bool {
    match written {
        Ok(written) => written.as_slice() == text.as_bytes(),
        Err(_) => false,
    }
}

#[test]
fn a_report_has_a_line_for_each_count(rt: HostRuntime) {
    let relay = serving_commands::relay::report_text(rt.alloc(), &RELAY);
    assert!(rt;
        is_text(
            relay,
            "end turns\nturns 1099511627776\ndatagrams 2\npackets 3\nupdated 4\ntorn 5\nsent 6\nunsent 7\ninline 8\nstarved 9\nlate 10\nowed 11\npublished 12\napart 13\n",
        )
    );
    let gateway = serving_commands::gateway::report_text(rt.alloc(), &GATEWAY);
    assert!(rt;
        is_text(
            gateway,
            "end closed\nturns 0\ndatagrams 2\ncontrols 3\nbad_controls 4\ndelivered 5\nunsent 6\nstarved 7\n",
        )
    );
}
