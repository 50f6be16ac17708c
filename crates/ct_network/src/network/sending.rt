//! Mail is sent: its envelopes get the next serials, and these come to the ends of the lines.

ghost use Rattle.std.specs.Prelude.{◌≡◌, ℕ, ◌+◌, ◌-◌, ◌<◌, ◌≤◌, ◌++◌, true, length, IsTrue};
ghost use Rattle.ct_names.specs.Group.{is_member};
ghost use Rattle.ct_model.specs.Waiting.{serials_to};
ghost use Rattle.ct_model.specs.Wire.{envelopes};
ghost use Rattle.ct_model.specs.declared.mail.Mail.TheVariants.{One, All};
ghost use Rattle.ct_network.specs.Lines.{serials_of, HaveRoom};
ghost use Rattle.ct_network.specs.Network.{line_at, IsAddressed};

use crate::envelopes::Envelopes;
use crate::line::Line;
use crate::network::Network;
use ct_model::{Mail, Wire};
use ct_names::{MAX_ENVELOPES, MAX_MEMBERS, Member};

impl Network {
    /// Sends the mail, and answers how many envelopes that were. Takes no memory.
    pub fn post(&mut self, mail: Mail) -> u32
        requires room { IsTrue self.old.has_room }
        requires to { IsAddressed (length self.old.lines) mail }
        requires few { length self.old.sent + length (envelopes (length self.old.lines) mail) ≤ MAX_ENVELOPES }
        requires small { length self.old.lines ≤ MAX_MEMBERS }
        ensures sent { self.new.sent ≡ self.old.sent ++ envelopes (length self.old.lines) mail }
        ensures members { length self.new.lines ≡ length self.old.lines }
        ensures joined { (q : ℕ) → is_member (length self.old.lines) q ≡ true →
            line_at self.new.lines q ≡ line_at self.old.lines q
            ++ serials_to q (length self.old.sent) (envelopes (length self.old.lines) mail) }
        ensures number { result ≡ length (envelopes (length self.old.lines) mail) }
    {
        match mail {
            Mail::Nobody => 0,
            Mail::One(to, wire) => {
                send_one(&mut self.envelopes, &mut self.lines, to, wire);
                self.spare -= 1;
                1
            }
            Mail::All(wire) => {
                send_to_all(&mut self.envelopes, &mut self.lines, wire);
                self.spare -= 1;
                self.lines.len() as u32
            }
        }
    }
}

// The wire goes to this member: an envelope is sent, and its serial joins the member's line.
fn send_one(sent: &mut Envelopes, lines: &mut Vec<Line>, to: Member, wire: Wire)
    requires room { HaveRoom lines.old.items 1 }
    requires place { 0 < sent.old.room }
    requires to { is_member (length lines.old.items) to ≡ true }
    requires few { length sent.old.items < MAX_ENVELOPES }
    ensures sent { sent.new.items ≡ sent.old.items ++ envelopes (length lines.old.items) (One to wire) }
    ensures members { length lines.new.items ≡ length lines.old.items }
    ensures room { (least : ℕ) → HaveRoom lines.old.items least → HaveRoom lines.new.items (least - 1) }
    ensures joined { (q : ℕ) → is_member (length lines.old.items) q ≡ true →
        line_at (serials_of lines.new.items) q ≡ line_at (serials_of lines.old.items) q
        ++ serials_to q (length sent.old.items) (envelopes (length lines.old.items) (One to wire)) }
{
    sent.add_one(to, wire);
    let line = &mut lines[to as usize - 1];
    line.join(sent.len() as u32);
}

// The wire goes to each member in turn: an envelope is sent, and its serial joins the member's line.
fn send_to_all(sent: &mut Envelopes, lines: &mut Vec<Line>, wire: Wire)
    requires room { HaveRoom lines.old.items 1 }
    requires places { length lines.old.items ≤ sent.old.room }
    requires few { length sent.old.items + length lines.old.items ≤ MAX_ENVELOPES }
    requires small { length lines.old.items ≤ MAX_MEMBERS }
    ensures sent { sent.new.items ≡ sent.old.items ++ envelopes (length lines.old.items) (All wire) }
    ensures members { length lines.new.items ≡ length lines.old.items }
    ensures room { (least : ℕ) → HaveRoom lines.old.items least → HaveRoom lines.new.items (least - 1) }
    ensures joined { (q : ℕ) → is_member (length lines.old.items) q ≡ true →
        line_at (serials_of lines.new.items) q ≡ line_at (serials_of lines.old.items) q
        ++ serials_to q (length sent.old.items) (envelopes (length lines.old.items) (All wire)) }
{
    let before = sent.len() as u32;
    sent.add_all(lines.len() as u8, wire);
    for i in 0..lines.len() {
        let line = &mut lines[i];
        line.join(before + i as u32 + 1);
    }
}
