//! How a packet is copied.
ghost use Rattle.std.specs.Prelude.{◌≡◌, ◌≤◌, ◌+◌, [], ◌∷◌, Ok, length, MatchOption, IsErr, IfSome, map};
ghost use Rattle.amt_messages.specs.{Layout.{spelling_of}, declared.message.Message.TheVariants.{Multicast}};
ghost use Rattle.endpoint_membership.specs.Targets.{targets_of};
ghost use Rattle.published_table.specs.{Lists.{BeginsWith, BeginsWithEach}, Views.{IsSameView, named, note_publisher, publisher_of, seen, terms_of, told}};
ghost use Rattle.relay_machine.specs.Packets.{head_to_copy};
ghost use Rattle.replication_workers.specs.{Replication.{with_message}, Replicators.{Tries, copies_due, limit_of, out_of, view_of}};

use super::Replicator;
use super::sending::{SendCounts, send_all, write_message};
use crate::job::{Copied, Job};
use amt_ports::OutLink;
use amt_values::{Moment, forwardable};
use endpoint_membership::Targets;
use inner_datagrams::{Head, packet_head};
use published_table::{Note, View};
use std::sync::Wait;

// The source and the group of a packet that is copied: it isn't too long, and begins with a head whose
// group is forwarded.
fn head_of_copied(limit: u32, packet: &[u8]) -> Option<Head>
    requires { length packet.now ≤ 65535 }
    ensures head { MatchOption result (IsErr (head_to_copy limit packet.now))
        (λ head. head_to_copy limit packet.now ≡ Ok head) }
    ensures size { IfSome result (λ head. length packet.now ≤ limit) }
{
    if packet.len() > limit as usize {
        return None;
    }
    match packet_head(packet) {
        Ok(head) => {
            if forwardable(&head.group) {
                Some(head)
            } else {
                None
            }
        }
        Err(_) => None,
    }
}

/// Asks the view until it answers: how many entries its log has.
pub fn read_length<R: Wait>(rt: &R, view: &mut View) -> u64
    ensures view { IsSameView view.old view.new }
    ensures further { BeginsWith (seen view.new) (seen view.old) }
    ensures told { BeginsWithEach (seen view.new) (told view.old) }
    ensures number { result ≡ length (seen view.new) }
{
    for _ in rt.forever() {
        if let Some(number) = view.length() {
            return number;
        }
    }
    unreachable!()
}

// Asks the view until it answers: who gets the packet, and by a log of how many entries.
fn find_targets<R: Wait>(
    rt: &R,
    view: &mut View,
    head: &Head,
    at: &Moment,
    targets: &mut Targets,
) -> u64
    requires { (terms_of view.old).limits.endpoints ≤ targets.old.room }
    ensures view { IsSameView view.old view.new }
    ensures further { BeginsWith (seen view.new) (seen view.old) }
    ensures told { BeginsWithEach (seen view.new) (told view.old) }
    ensures number { result ≡ length (seen view.new) }
    ensures targets { targets.new.endpoints
        ≡ targets_of (terms_of view.old).lifetime_ms (seen view.new) head.now.group head.now.source at.now }
    ensures room { targets.new.room ≡ targets.old.room }
{
    for _ in rt.forever() {
        let found = view.admitting_into(&head.group, &head.source, at, targets);
        if let Some(number) = found {
            return number;
        }
    }
    unreachable!()
}

impl<O: OutLink> Replicator<O> {
    // Sends the packet as a message to the targets. Where there are none no message is written.
    fn send_to_targets(&mut self, packet: &[u8]) -> SendCounts
        requires { length packet.now ≤ limit_of self.old }
        ensures view { view_of self.new ≡ view_of self.old }
        ensures sends { Tries self.old self.new
            (map (with_message (spelling_of (Multicast packet.now))) self.old.targets.endpoints) result.sent result.unsent }
        ensures few { result.sent + result.unsent ≤ 65536 }
        ensures limit { limit_of self.new ≡ limit_of self.old }
    {
        if self.targets.len() == 0 {
            return SendCounts { sent: 0, unsent: 0 };
        }
        write_message(packet, &mut self.message);
        send_all(
            &mut self.out,
            self.targets.as_slice(),
            self.message.as_slice(),
        )
    }

    // Finds who wants the packet with this head, and sends it to them.
    fn copy_to_targets<R: Wait>(
        &mut self,
        rt: &R,
        head: &Head,
        at: &Moment,
        packet: &[u8],
    ) -> Copied
        requires size { length packet.now ≤ limit_of self.old }
        requires copied { head_to_copy (limit_of self.old) packet.now ≡ Ok head.now }
        ensures view { IsSameView (view_of self.old) (view_of self.new) }
        ensures further { BeginsWith (seen (view_of self.new)) (seen (view_of self.old)) }
        ensures told { BeginsWithEach (seen (view_of self.new)) (told (view_of self.old)) }
        ensures prefix { result.prefix ≡ length (seen (view_of self.new)) }
        ensures sends { Tries self.old self.new
            (copies_due self.old (seen (view_of self.new)) at.now packet.now)
            result.sent result.unsent }
        ensures few { result.sent + result.unsent ≤ 65536 }
        ensures limit { limit_of self.new ≡ limit_of self.old }
    {
        let prefix = find_targets(rt, &mut self.view, head, at, &mut self.targets);
        let SendCounts { sent, unsent } = self.send_to_targets(packet);
        Copied {
            prefix,
            sent,
            unsent,
        }
    }

    // Brings the view up to date for a packet that isn't copied.
    fn copy_to_none<R: Wait>(&mut self, rt: &R) -> Copied
        ensures view { IsSameView (view_of self.old) (view_of self.new) }
        ensures further { BeginsWith (seen (view_of self.new)) (seen (view_of self.old)) }
        ensures told { BeginsWithEach (seen (view_of self.new)) (told (view_of self.old)) }
        ensures prefix { result.prefix ≡ length (seen (view_of self.new)) }
        ensures sends { Tries self.old self.new [] result.sent result.unsent }
        ensures few { result.sent + result.unsent ≤ 65536 }
        ensures limit { limit_of self.new ≡ limit_of self.old }
    {
        Copied {
            prefix: read_length(rt, &mut self.view),
            sent: 0,
            unsent: 0,
        }
    }

    // Copies the packet by the view as it stands.
    fn copy<R: Wait>(&mut self, rt: &R, at: &Moment, packet: &[u8]) -> Copied
        requires { length packet.now ≤ 65535 }
        ensures view { IsSameView (view_of self.old) (view_of self.new) }
        ensures further { BeginsWith (seen (view_of self.new)) (seen (view_of self.old)) }
        ensures told { BeginsWithEach (seen (view_of self.new)) (told (view_of self.old)) }
        ensures prefix { result.prefix ≡ length (seen (view_of self.new)) }
        ensures sends { Tries self.old self.new
            (copies_due self.old (seen (view_of self.new)) at.now packet.now)
            result.sent result.unsent }
        ensures few { result.sent + result.unsent ≤ 65536 }
        ensures limit { limit_of self.new ≡ limit_of self.old }
    {
        let Some(head) = head_of_copied(self.packet_limit, packet) else {
            return self.copy_to_none(rt);
        };
        self.copy_to_targets(rt, &head, at, packet)
    }

    // Learns the note's log; all else stays.
    fn learn(&mut self, note: Note)
        requires { note_publisher note ≡ publisher_of (view_of self.old) }
        ensures seen { seen (view_of self.new) ≡ seen (view_of self.old) }
        ensures told { told (view_of self.new) ≡ named note ∷ told (view_of self.old) }
        ensures publisher { publisher_of (view_of self.new) ≡ publisher_of (view_of self.old) }
        ensures terms { terms_of (view_of self.new) ≡ terms_of (view_of self.old) }
        ensures out { out_of self.new ≡ out_of self.old }
        ensures limit { limit_of self.new ≡ limit_of self.old }
    {
        self.view.learn(note);
    }

    /// Sends the packet to each endpoint that wants it, in order, as one Multicast Data message each (RFC
    /// 7450, section 5.3.3.2). Who wants it is found by a log that begins with the note's. An endpoint to
    /// which the send fails is not tried again; the others are tried all the same.
    pub fn replicate<R: Wait>(&mut self, rt: &R, job: Job) -> Copied
        requires publisher { note_publisher job.note ≡ publisher_of (view_of self.old) }
        ensures view { (terms_of (view_of self.new) ≡ terms_of (view_of self.old))
            × (publisher_of (view_of self.new) ≡ publisher_of (view_of self.old))
            × (told (view_of self.new) ≡ named job.note ∷ told (view_of self.old)) }
        ensures further { BeginsWith (seen (view_of self.new)) (seen (view_of self.old)) }
        ensures told { BeginsWithEach (seen (view_of self.new)) (named job.note ∷ told (view_of self.old)) }

        ensures prefix { result.prefix ≡ length (seen (view_of self.new)) }
        ensures sends { Tries self.old self.new
            (copies_due self.old (seen (view_of self.new)) job.at job.packet)
            result.sent result.unsent }
        ensures few { result.sent + result.unsent ≤ 65536 }
        ensures limit { limit_of self.new ≡ limit_of self.old }
    {
        let Job { packet, at, note } = job;
        self.learn(note);
        self.copy(rt, &at, packet.as_slice())
    }
}
