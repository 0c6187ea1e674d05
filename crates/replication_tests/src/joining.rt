//! Three hosts in memory, of which host 2 lags, is answered Gone, and joins the others by the state of host 0.

use ballots::{Bytes, Letter, Members, NodeId};
use host_states::{StateHead, framed};
use hosts::{Given, Host, HostActed, JoinFault, Opens, PlainOpens};
use map_release::Numbered;
use script_text::read_script;
use seats::{Acted, Asked};
use std::alloc::Global;
use std::test::Fail;
use world_events::Event;

/// What host 0 offers, in order. The second lease is over at 1050, and the MAP behind the first cut begins at 1100.
static OFFERED: [&str; 8] = [
    "'channel', ch = 1, ucd = 7, short_max = 16, ranging = [2, 5], data = [3, 8], base = 1000",
    "'flow', ch = 1, modem = 50, tag = 1, service = 'best_effort', priority = 3",
    "'flow', ch = 1, modem = 51, tag = 2, last = 1050, service = 'best_effort', priority = 3",
    "'request', ch = 1, sid = 1, n = 20, sent = 1010",
    "'cut', ch = 1, len = 100, not_before = 0, ack = 1020",
    "'cut', ch = 1, len = 100, not_before = 0, ack = 1090",
    "'request', ch = 1, sid = 1, n = 20, sent = 1210",
    "'cut', ch = 1, len = 100, not_before = 0, ack = 1220",
];

/// The host that lags.
const LAGS: u8 = 2;

/// Letters are answered at most so often.
const ROUNDS: usize = 8;

/// Hosts of so many places in an epoch, and the outputs that were given.
#[derive(Drop)]
struct Group<O: Opens> {
    alloc: Global,
    places: u64,
    hosts: Vec<Host<O>>,
    log: Vec<Numbered>,
}

fn node(number: u8) -> Result<NodeId, Fail> {
    Ok(NodeId::new(number).ok_or("node")?)
}

fn new_host(
    alloc: Global,
    number: u8,
    members: Members,
    places: u64,
) -> Result<Host<PlainOpens>, Fail> {
    let opens = PlainOpens::new(alloc, node(number)?, members).ok_or("member")?;
    Ok(Host::new(alloc, opens, places)?)
}

fn value_of(alloc: Global, command: &str) -> Result<Bytes, Fail> {
    let offer = format!(in alloc; "{{kind = 'offer', node = 0, command = {{kind = {command}}}}}")?;
    let text = format!(in alloc; "members = 3\nevent = [{offer}]")?;
    match read_script(alloc, text.as_str())?.events.pop() {
        Some(Event::Offer(_, value)) => Ok(value),
        _ => Err("value".into()),
    }
}

fn new_group(alloc: Global, places: u64) -> Result<Group<PlainOpens>, Fail> {
    let mut hosts = Vec::new(alloc);
    for number in 0..Members::Three.count() {
        hosts.push(new_host(alloc, number, Members::Three, places)?)?;
    }
    Ok(Group {
        alloc,
        places,
        hosts,
        log: Vec::new(alloc),
    })
}

fn letters_of(acted: HostActed) -> Result<Vec<Letter>, Fail> {
    match acted {
        HostActed::Of(Acted::Sent(letters)) => Ok(letters),
        _ => Err("letters".into()),
    }
}

/// What a host gives, and its epoch with the next place of that.
fn released<O: Opens>(host: &mut Host<O>) -> Result<(Vec<Numbered>, (u64, u64)), Fail> {
    match host.release(0) {
        Given::Outputs {
            outputs,
            epoch,
            place,
        } => Ok((outputs, (epoch, place))),
        Given::Failed(fault) => Err(fault.into()),
    }
}

impl<O: Opens> Group<O> {
    fn host(&mut self, number: u8) -> Result<&mut Host<O>, Fail> {
        Ok(self.hosts.get_mut(usize::from(number)).ok_or("host")?)
    }

    fn act(&mut self, number: u8, epoch: u64, asked: Asked) -> Result<HostActed, Fail> {
        let places = self.places;
        Ok(self.host(number)?.act(epoch, places, asked))
    }

    /// Takes letters to the first hosts, so many, and gives what these send.
    fn take(&mut self, epoch: u64, letters: &[Letter], near: u8) -> Result<Vec<Letter>, Fail> {
        let mut sent = Vec::new(self.alloc);
        for letter in letters {
            let to = letter.to.number();
            if to < near {
                let acted = self.act(to, epoch, Asked::Receive(letter))?;
                for answer in letters_of(acted)? {
                    sent.push(answer)?;
                }
            }
        }
        Ok(sent)
    }

    /// Asks host 0, and takes letters to the first hosts until none is left.
    fn ask(&mut self, epoch: u64, asked: Asked, near: u8) -> Result<(), Fail> {
        let acted = self.act(0, epoch, asked)?;
        let mut letters = letters_of(acted)?;
        for _ in 0..ROUNDS {
            letters = self.take(epoch, &letters, near)?;
        }
        if letters.is_empty() {
            Ok(())
        } else {
            Err("letters".into())
        }
    }

    /// Host 0 offers the next value. It leads each epoch from its first place on.
    fn offer(&mut self, near: u8) -> Result<(), Fail> {
        let count = self.log.len();
        let command = OFFERED.get(count).ok_or("command")?;
        let value = value_of(self.alloc, command)?;
        let before = (count as u64).checked_div(self.places).ok_or("places")?;
        let epoch = before.saturating_add(1);
        if (count as u64).checked_rem(self.places) == Some(0) {
            self.ask(epoch, Asked::Lead, near)?;
        }
        self.ask(epoch, Asked::Offer(value.as_slice()), near)
    }

    /// What a host gives, where that is one output.
    fn given(&mut self, number: u8) -> Result<Numbered, Fail> {
        let (mut outputs, _) = released(self.host(number)?)?;
        match (outputs.pop(), outputs.is_empty()) {
            (Some(output), true) => Ok(output),
            _ => Err("outputs".into()),
        }
    }

    /// Values are offered up to so many, and the first hosts give the same outputs, with the same numbers.
    fn go_on(&mut self, count: usize, near: u8) -> Result<(), Fail> {
        for _ in self.log.len()..count {
            self.offer(near)?;
            let output = self.given(0)?;
            for number in 1..near {
                if !self.given(number)?.is_same(&output) {
                    return Err("another output".into());
                }
            }
            self.log.push(output)?;
        }
        Ok(())
    }

    /// Whether a host answers Gone where it is asked in an epoch to tell what it learned.
    fn is_gone(&mut self, number: u8, epoch: u64) -> Result<bool, Fail> {
        let to = node(LAGS)?;
        let acted = self.act(number, epoch, Asked::Tell(&to, 1))?;
        Ok(matches!(acted, HostActed::Gone))
    }

    /// Whether the host that lags goes to the state of host 0, with this head, and then has it under its own number.
    fn joins(&mut self, head: StateHead) -> Result<bool, Fail> {
        let state = self.host(0)?.state()?;
        let lags = self.host(LAGS)?;
        lags.join(&state)?;
        let own = lags.state()?;
        match (framed(&state), framed(&own)) {
            (Some((of, rows)), Some((own, same))) => {
                Ok(of == head && own == StateHead { id: LAGS, ..head } && rows == same)
            }
            _ => Ok(false),
        }
    }

    /// Whether it gives the outputs of these numbers again.
    fn gives_again(&mut self, numbers: &[u64]) -> Result<bool, Fail> {
        let again = self.host(LAGS)?.again()?;
        for (output, number) in again.iter().zip(numbers) {
            let is_it = |one: &Numbered| one.place == *number && one.output.is_same(output);
            if !self.log.iter().any(is_it) {
                return Ok(false);
            }
        }
        Ok(again.len() == numbers.len())
    }

    /// Whether it gives the last output too, once host 0 tells it what was learned in the epoch.
    fn catches_up(&mut self, epoch: u64) -> Result<bool, Fail> {
        let to = node(LAGS)?;
        self.ask(epoch, Asked::Tell(&to, 1), 3)?;
        let output = self.given(LAGS)?;
        Ok(self.log.last().ok_or("output")?.is_same(&output))
    }
}

/// Places of an epoch, how many epochs are full before one joins, and the numbers of the outputs that it gives again.
static ROWS: [(u64, u64, &[u64]); 6] = [
    (1, 1, &[1]),
    (1, 2, &[1, 2]),
    (1, 3, &[1, 2, 3]),
    (2, 1, &[1, 2]),
    (2, 2, &[1, 2, 3]),
    (2, 3, &[1, 2]),
];

/// Whether one lags so many epochs, joins behind the first value of the next one, and then gives what the others give.
fn joins_behind<O: Opens>(mut group: Group<O>, full: u64, again: &[u64]) -> Result<bool, Fail> {
    let head = StateHead {
        epoch: full.saturating_add(1),
        places: group.places,
        before: group.places.saturating_mul(full),
        id: 0,
        members: 3,
    };
    group.go_on((head.before as usize).saturating_add(1), 2)?;
    let was_gone = group.is_gone(0, 1)? == (full >= 2);
    let joins = group.joins(head)? && group.gives_again(again)?;
    let is_gone = group.is_gone(LAGS, full)? == (full >= 3);
    let catches_up = group.catches_up(head.epoch)?;
    group.go_on(OFFERED.len(), 3)?;
    let last = group.log.last().ok_or("output")?;
    Ok(was_gone && joins && is_gone && catches_up && last.place == 8)
}

#[test]
fn one_that_lags_joins(rt: HostRuntime) -> Result<(), Fail> {
    for (places, full, again) in &ROWS {
        let group = new_group(rt.alloc(), *places)?;
        assert!(rt; joins_behind(group, *full, again)?, "{places} {full}");
    }
    Ok(())
}

/// Whether bytes are no state for a host, and nothing changes.
fn refuses<O: Opens>(host: &mut Host<O>, bytes: &[u8]) -> Result<bool, Fail> {
    let (state, again) = (host.state()?, host.again()?.len());
    let (_, at) = released(host)?;
    let is_none = host.join(bytes) == Err(JoinFault::NoState);
    let (outputs, same) = released(host)?;
    let stays = outputs.is_empty() && same == at && host.again()?.len() == again;
    Ok(is_none && stays && host.state()? == state)
}

/// Whether hosts in epochs 2, 2 and 1, and other ones, refuse these states. Host 2 joins in the end.
fn refuse<O: Opens>(mut group: Group<O>, mut others: Vec<Host<O>>) -> Result<bool, Fail> {
    group.go_on(3, 2)?;
    let (state, older) = (group.host(0)?.state()?, group.host(LAGS)?.state()?);
    let (_, cut) = state.split_last().ok_or("state")?;
    for (number, bytes) in [(0, state.as_slice()), (1, &older), (2, &older), (2, cut)] {
        if !refuses(group.host(number)?, bytes)? {
            return Ok(false);
        }
    }
    for other in others.iter_mut() {
        if !refuses(other, &state)? {
            return Ok(false);
        }
    }
    Ok(group.host(LAGS)?.join(&state).is_ok())
}

#[test]
fn states_to_which_none_goes(rt: HostRuntime) -> Result<(), Fail> {
    let mut others = Vec::new(rt.alloc());
    for (members, places) in [(Members::Three, 1), (Members::Three, 3), (Members::Five, 2)] {
        others.push(new_host(rt.alloc(), LAGS, members, places)?)?;
    }
    assert!(rt; refuse(new_group(rt.alloc(), 2)?, others)?);
    Ok(())
}
