//! What each event changes at the home of its region, by name.
ghost use Rattle.std.specs.Prelude.{◌≡◌, ◌+◌, ◌-◌, ◌<◌, ◌≤◌, ◌^◌, ◌++◌, IsSome, Some, None, length, vec_len, vec_capacity};
ghost use Rattle.crl_protocol.specs.Node.{at_serial};
ghost use Rattle.crl_protocol.specs.Places.{at, put};
ghost use Rattle.crl_home.specs.Debts.{owed, ask_debt};
ghost use Rattle.crl_home.specs.HomesState as homes;
ghost use Rattle.crl_home.specs.HomesState.{owed_in, owed_of, table_or, table_at, with_table, HaveNodes};
ghost use Rattle.crl_home.specs.Keeping.{TakeKeeps, PutKeeps};
ghost use Rattle.crl_home.specs.Posts.{letter_pieces};
ghost use Rattle.crl_home.specs.Starts.{HaveSize, ReadsBelow};

use crate::home::Home;
use crate::homes::Homes;
use crl_model::NodeNo;
use crl_model::bytes::Bytes;
use crl_model::directory::Asked;
use crl_model::name::Name;
use crl_outbox::{Mailbox, Sheets};

impl Homes {
    /// The region's table is taken out.
    #[inline(always)]
    fn take(&mut self, name: Name) -> Option<Home>
        requires there { IsSome (at_serial name.serial self.old.homes) }
        ensures table { result ≡ Some (table_at name self.old.homes) }
        ensures homes { self.new ≡ record self.old { homes = put (name.serial - 1) None self.old.homes } }
        ensures owes { owed_in self.new.homes + owed (table_at name self.old.homes) ≡ owed_in self.old.homes }
        ensures copies { length (table_at name self.old.homes).listed ≡ self.old.nodes }
        ensures place { name.serial - 1 < length self.new.homes }
        ensures gone { at (name.serial - 1) self.new.homes ≡ None }
        ensures serials { length self.new.homes ≡ length self.old.homes }
    {
        let place = (name.serial as usize).saturating_sub(1);
        let home = take_at(&mut self.regions, place, self.nodes);
        self.owed -= owed_by(&home);
        home
    }

    /// The region's table is put back.
    #[inline(always)]
    fn put(&mut self, name: Name, home: Home)
        requires place { name.serial - 1 < length self.old.homes }
        requires gone { at (name.serial - 1) self.old.homes ≡ None }
        requires copies { length home.listed ≡ self.old.nodes }
        requires fits { owed_in self.old.homes + owed home < 2 ^ 64 }
        ensures homes { self.new ≡ with_table name home self.old }
        ensures owes { owed_in self.new.homes ≡ owed_in self.old.homes + owed home }
        ensures serials { length self.new.homes ≡ length self.old.homes }
    {
        let place = (name.serial as usize).saturating_sub(1);
        self.owed += home.owed();
        put_at(&mut self.regions, place, home, self.nodes);
    }

    /// An ask comes, with paper for the region's bytes. Answers whether the home's own section opened.
    #[tactic(auto, using(crate::proofs::Putting::put_put))]
    pub fn take_ask(&mut self, name: Name, asked: Asked, sheets: Sheets, out: &mut Mailbox) -> bool
        requires there { IsSome (at_serial name.serial self.old.homes) }
        requires node { asked.node < self.old.nodes }
        requires few { length (table_at name self.old.homes).queue < self.old.nodes }
        requires sheets { sheets ≡ (table_at name self.old.homes).size }
        requires room { owed_in self.old.homes + ask_debt (table_at name self.old.homes).size ≤ out.old.room }
        requires versions { (table_at name self.old.homes).last + length (table_at name self.old.homes).queue + 1 < 2 ^ 64 }
        ensures homes { self.new ≡ with_table name (homes.ask_step name asked self.old).home self.old }
        ensures serials { length self.new.homes ≡ length self.old.homes }
        ensures posts { out.new.list ≡ out.old.list ++ letter_pieces self.old.me name (homes.ask_step name asked self.old).posts }
        ensures opened { result ≡ (homes.ask_step name asked self.old).opened }
        ensures places { length out.new.list + out.new.room ≡ length out.old.list + out.old.room }
        ensures owes { owed_in self.new.homes + length out.new.list ≤ owed_in self.old.homes + ask_debt (table_at name self.old.homes).size + length out.old.list }
    {
        let _room = out.room();
        match self.take(name) {
            Some(mut home) => {
                let opened = home.take_ask(self.me, name, asked, sheets, out);
                self.put(name, home);
                opened
            }
            None => false,
        }
    }

    /// The copy of a node comes back. Answers whether the home's own section opened.
    #[tactic(auto, using(crate::proofs::Putting::put_put))]
    pub fn take_return(
        &mut self,
        name: Name,
        from: NodeNo,
        bytes: Option<Bytes>,
        out: &mut Mailbox,
    ) -> bool
        requires there { IsSome (at_serial name.serial self.old.homes) }
        requires node { from < self.old.nodes }
        requires sized { HaveSize bytes (table_at name self.old.homes).size }
        requires room { owed_in self.old.homes ≤ out.old.room }
        requires versions { (table_at name self.old.homes).last + length (table_at name self.old.homes).queue < 2 ^ 64 }
        ensures homes { self.new ≡ with_table name (homes.return_step name from bytes self.old).home self.old }
        ensures serials { length self.new.homes ≡ length self.old.homes }
        ensures posts { out.new.list ≡ out.old.list ++ letter_pieces self.old.me name (homes.return_step name from bytes self.old).posts }
        ensures opened { result ≡ (homes.return_step name from bytes self.old).opened }
        ensures places { length out.new.list + out.new.room ≡ length out.old.list + out.old.room }
        ensures owes { owed_in self.new.homes + length out.new.list ≤ owed_in self.old.homes + length out.old.list }
    {
        let _room = out.room();
        match self.take(name) {
            Some(mut home) => {
                let opened = home.take_return(self.me, name, from, bytes, out);
                self.put(name, home);
                opened
            }
            None => false,
        }
    }

    /// The copy of a node became a shared one. If it came back before, or was granted anew, nothing
    /// changes. Answers whether the home's own section opened.
    #[tactic(auto, using(crate::proofs::Putting::put_put))]
    pub fn take_release(
        &mut self,
        name: Name,
        from: NodeNo,
        version: u64,
        bytes: Bytes,
        out: &mut Mailbox,
    ) -> bool
        requires there { IsSome (at_serial name.serial self.old.homes) }
        requires node { from < self.old.nodes }
        requires sized { length bytes ≡ (table_at name self.old.homes).size }
        requires room { owed_in self.old.homes + 2 ≤ out.old.room }
        requires versions { (table_at name self.old.homes).last + length (table_at name self.old.homes).queue < 2 ^ 64 }
        ensures homes { self.new ≡ with_table name (homes.release_step name from version bytes self.old).home self.old }
        ensures serials { length self.new.homes ≡ length self.old.homes }
        ensures posts { out.new.list ≡ out.old.list ++ letter_pieces self.old.me name (homes.release_step name from version bytes self.old).posts }
        ensures opened { result ≡ (homes.release_step name from version bytes self.old).opened }
        ensures places { length out.new.list + out.new.room ≡ length out.old.list + out.old.room }
        ensures owes { owed_in self.new.homes + length out.new.list ≤ owed_in self.old.homes + 2 + length out.old.list }
    {
        let _room = out.room();
        match self.take(name) {
            Some(mut home) => {
                let opened = home.take_release(self.me, name, from, version, bytes, out);
                self.put(name, home);
                opened
            }
            None => false,
        }
    }

    /// A section of the home's own starts, with paper for the region's bytes. Answers whether it opened;
    /// else its ask is in the queue.
    #[tactic(auto, using(crate::proofs::Putting::put_put))]
    pub fn start(&mut self, name: Name, write: bool, sheets: Sheets, out: &mut Mailbox) -> bool
        requires there { IsSome (at_serial name.serial self.old.homes) }
        requires few { length (table_at name self.old.homes).queue < self.old.nodes }
        requires sheets { sheets ≡ (table_at name self.old.homes).size }
        requires count { ReadsBelow (2 ^ 32 - 1) (table_at name self.old.homes).mine }
        requires room { owed_in self.old.homes + ask_debt (table_at name self.old.homes).size ≤ out.old.room }
        requires versions { (table_at name self.old.homes).last + length (table_at name self.old.homes).queue + 1 < 2 ^ 64 }
        ensures homes { self.new ≡ with_table name (homes.start_step name write self.old).home self.old }
        ensures serials { length self.new.homes ≡ length self.old.homes }
        ensures posts { out.new.list ≡ out.old.list ++ letter_pieces self.old.me name (homes.start_step name write self.old).posts }
        ensures opened { result ≡ (homes.start_step name write self.old).opened }
        ensures places { length out.new.list + out.new.room ≡ length out.old.list + out.old.room }
        ensures owes { owed_in self.new.homes + length out.new.list ≤ owed_in self.old.homes + ask_debt (table_at name self.old.homes).size + length out.old.list }
    {
        let _room = out.room();
        match self.take(name) {
            Some(mut home) => {
                let opened = home.start(self.me, name, write, sheets, out);
                self.put(name, home);
                opened
            }
            None => false,
        }
    }

    /// A read section of the home's own ends.
    #[tactic(auto, using(crate::proofs::Putting::put_put))]
    pub fn end_read(&mut self, name: Name, out: &mut Mailbox)
        requires there { IsSome (at_serial name.serial self.old.homes) }
        requires room { owed_in self.old.homes ≤ out.old.room }
        requires versions { (table_at name self.old.homes).last + length (table_at name self.old.homes).queue < 2 ^ 64 }
        ensures homes { self.new ≡ with_table name (homes.end_read_step name self.old).home self.old }
        ensures serials { length self.new.homes ≡ length self.old.homes }
        ensures posts { out.new.list ≡ out.old.list ++ letter_pieces self.old.me name (homes.end_read_step name self.old).posts }
        ensures places { length out.new.list + out.new.room ≡ length out.old.list + out.old.room }
        ensures owes { owed_in self.new.homes + length out.new.list ≤ owed_in self.old.homes + length out.old.list }
    {
        let _room = out.room();
        if let Some(mut home) = self.take(name) {
            home.end_read(self.me, name, out);
            self.put(name, home);
        }
    }

    /// The home's own write section ends, with these bytes.
    #[tactic(auto, using(crate::proofs::Putting::put_put))]
    pub fn end_write(&mut self, name: Name, bytes: Bytes, out: &mut Mailbox)
        requires there { IsSome (at_serial name.serial self.old.homes) }
        requires sized { length bytes ≡ (table_at name self.old.homes).size }
        requires room { owed_in self.old.homes ≤ out.old.room }
        requires versions { (table_at name self.old.homes).last + length (table_at name self.old.homes).queue < 2 ^ 64 }
        ensures homes { self.new ≡ with_table name (homes.end_write_step name bytes self.old).home self.old }
        ensures serials { length self.new.homes ≡ length self.old.homes }
        ensures posts { out.new.list ≡ out.old.list ++ letter_pieces self.old.me name (homes.end_write_step name bytes self.old).posts }
        ensures places { length out.new.list + out.new.room ≡ length out.old.list + out.old.room }
        ensures owes { owed_in self.new.homes + length out.new.list ≤ owed_in self.old.homes + length out.old.list }
    {
        let _room = out.room();
        if let Some(mut home) = self.take(name) {
            home.end_write(self.me, name, bytes, out);
            self.put(name, home);
        }
    }
}

/// The table at this place is taken out.
#[tactic(auto, using(crate::proofs::Putting::there_below, crate::proofs::Putting::at_is_read, crate::proofs::Putting::put_is_set))]
#[inline(always)]
fn take_at(regions: &mut Vec<Option<Home>>, place: usize, nodes: NodeNo) -> Option<Home>
    requires there { IsSome (at place regions.old.items) }
    requires copies { HaveNodes nodes regions.old.items }
    ensures table { result ≡ Some (table_or (at place regions.old.items)) }
    ensures homes { regions.new.items ≡ put place None regions.old.items }
    ensures len { vec_len regions.new ≡ vec_len regions.old }
    ensures capacity { vec_capacity regions.new ≡ vec_capacity regions.old }
    ensures keeps { TakeKeeps place nodes regions.old.items }
{
    regions[place].take()
}

/// The table is put back at this place.
#[tactic(auto, using(crate::proofs::Putting::put_is_set))]
#[inline(always)]
fn put_at(regions: &mut Vec<Option<Home>>, place: usize, home: Home, nodes: NodeNo)
    requires place { place < length regions.old.items }
    requires gone { at place regions.old.items ≡ None }
    requires copies { HaveNodes nodes regions.old.items × (length home.listed ≡ nodes) }
    ensures homes { regions.new.items ≡ put place (Some home) regions.old.items }
    ensures len { vec_len regions.new ≡ vec_len regions.old }
    ensures capacity { vec_capacity regions.new ≡ vec_capacity regions.old }
    ensures keeps { PutKeeps place nodes home regions.old.items }
{
    regions[place] = Some(home);
}

/// How many pieces the region's home may still have to post.
fn owed_by(home: &Option<Home>) -> usize
    requires { owed_of home.now < 2 ^ 64 }
    ensures { result ≡ owed_of home.now }
{
    match home {
        Some(home) => home.owed(),
        None => 0,
    }
}
