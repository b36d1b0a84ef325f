//! The scoreboard of a sender: what the peer told by SACK that it has (RFC 2018, section 5; RFC 6675, section 4).
ghost use Rattle.std.specs.Prelude.{◌≡◌, ◌<◌, ◌^◌, length};
ghost use Rattle.control_wire.specs.Seq.{seq_sub};
ghost use Rattle.sock_tcp.specs.Rfc.Scoreboard.{added, all_told, any_news, begins_in, block_from, block_moved};
ghost use Rattle.sock_tcp.specs.Rfc.Scoreboard.{highest_told, hole_behind};
ghost use Rattle.sock_tcp.specs.Rfc.Scoreboard.{hole_between, hole_number, hole_size, hole_start, is_blank};
ghost use Rattle.sock_tcp.specs.Rfc.Scoreboard.{is_credible, is_known, is_news_of, is_none, is_within, joined};
ghost use Rattle.sock_tcp.specs.Rfc.Scoreboard.{joined_all, moved, next_told, no_block, nothing_told, passed, pushed};
ghost use Rattle.sock_tcp.specs.Rfc.Scoreboard.{sooner, tells_news, told, unless_within, untold, without};

use control_wire::TcpSeqNumber;

/// Bytes that the peer told, counted from SND.UNA on. None where it ends at 0.
#[derive(Debug, Clone, Copy)]
pub struct SackBlock {
    /// The place of the first one.
    pub start: u32,
    /// The place behind the last one.
    pub end: u32,
}

/// Bytes that the peer lacks, before some that it told, counted from SND.UNA on.
#[derive(Debug, Clone, Copy)]
pub struct Hole {
    /// The place of the first one.
    pub start: u32,
    /// The place behind the last one.
    pub end: u32,
}

/// What the peer told by SACK: at most four blocks, which neither overlap nor touch.
#[derive(Debug, Clone, Copy)]
pub struct Scoreboard {
    /// The block that was told last.
    pub newest: SackBlock,
    /// The one before it.
    pub second: SackBlock,
    /// The one before that.
    pub third: SackBlock,
    /// The one that is given up where another comes.
    pub oldest: SackBlock,
}

const NO_BLOCK: SackBlock = SackBlock { start: 0, end: 0 };

/// Nothing was told.
pub const NOTHING_TOLD: Scoreboard = Scoreboard {
    newest: NO_BLOCK,
    second: NO_BLOCK,
    third: NO_BLOCK,
    oldest: NO_BLOCK,
};

impl SackBlock {
    // The block of a SACK option.
    fn from(una: TcpSeqNumber, range: (u32, u32)) -> SackBlock
        ensures { result ≡ block_from una range }
    {
        SackBlock {
            start: TcpSeqNumber(range.0).since(una) as u32,
            end: TcpSeqNumber(range.1).since(una) as u32,
        }
    }

    fn is_none(self) -> bool
        ensures { result ≡ is_none self }
    {
        self.end == 0
    }

    // Whether it tells of bytes behind SND.UNA, of which `sent` were sent: nothing else is believed.
    fn is_credible(self, sent: usize) -> bool
        ensures { result ≡ is_credible sent self }
    {
        0 < self.start && (self.start < self.end && self.end as usize <= sent)
    }

    fn is_within(self, other: SackBlock) -> bool
        ensures { result ≡ is_within self other }
    {
        other.start <= self.start && self.end <= other.end
    }

    // Both with what lies between, where they overlap or touch.
    fn joined(self, other: SackBlock) -> SackBlock
        ensures { result ≡ joined self other }
    {
        if self.start <= other.end && other.start <= self.end {
            SackBlock {
                start: self.start.min(other.start),
                end: self.end.max(other.end),
            }
        } else {
            self
        }
    }

    // The other one, unless it lies in this one.
    fn unless_within(self, other: SackBlock) -> SackBlock
        ensures { result ≡ unless_within self other }
    {
        if other.is_within(self) {
            NO_BLOCK
        } else {
            other
        }
    }

    // SND.UNA moves by so many bytes.
    fn moved(self, count: u32) -> SackBlock
        ensures { result ≡ block_moved count self }
    {
        SackBlock {
            start: self.start.saturating_sub(count),
            end: self.end.saturating_sub(count),
        }
    }

    // Behind the block, where the place lies in it.
    fn passed(self, place: u32) -> u32
        ensures { result ≡ passed place self }
    {
        if self.start <= place && place < self.end {
            self.end
        } else {
            place
        }
    }

    // The sooner start behind the place; 0 stands for none.
    fn sooner(self, place: u32, best: u32) -> u32
        ensures { result ≡ sooner place best self }
    {
        if place < self.start && (best == 0 || self.start < best) {
            self.start
        } else {
            best
        }
    }
}

impl Scoreboard {
    /// Whether nothing is told.
    pub fn is_blank(&self) -> bool
        ensures { result ≡ is_blank self.now }
    {
        self.newest.is_none()
            && (self.second.is_none() && (self.third.is_none() && self.oldest.is_none()))
    }

    fn is_known(&self, block: SackBlock) -> bool
        ensures { result ≡ is_known self.now block }
    {
        block.is_within(self.newest)
            || (block.is_within(self.second)
                || (block.is_within(self.third) || block.is_within(self.oldest)))
    }

    // The block with those that it overlaps or touches.
    #[tactic(auto, unfolding(crate::specs::Rfc::Scoreboard::joined_all))]
    fn joined_all(&self, block: SackBlock) -> SackBlock
        ensures { result ≡ joined_all self.now block }
    {
        let block = block.joined(self.newest).joined(self.second);
        block.joined(self.third).joined(self.oldest)
    }

    // Without the blocks that lie in this one.
    #[tactic(auto, unfolding(crate::specs::Rfc::Scoreboard::without))]
    fn without(&self, block: SackBlock) -> Scoreboard
        ensures { result ≡ without self.now block }
    {
        Scoreboard {
            newest: block.unless_within(self.newest),
            second: block.unless_within(self.second),
            third: block.unless_within(self.third),
            oldest: block.unless_within(self.oldest),
        }
    }

    // The new one comes first; where there is no place left, the oldest is given up.
    #[tactic(auto, unfolding(crate::specs::Rfc::Scoreboard::pushed))]
    fn pushed(self, block: SackBlock) -> Scoreboard
        ensures { result ≡ pushed self block }
    {
        let mut after = self;
        after.newest = block;
        if self.newest.is_none() {
            return after;
        }
        after.second = self.newest;
        if self.second.is_none() {
            return after;
        }
        after.third = self.second;
        if self.third.is_none() {
            return after;
        }
        after.oldest = self.third;
        after
    }

    fn added(&self, block: SackBlock) -> Scoreboard
        ensures { result ≡ added self.now block }
    {
        let block = self.joined_all(block);
        self.without(block).pushed(block)
    }

    fn is_news(&self, sent: usize, block: SackBlock) -> bool
        ensures { result ≡ is_news_of self.now sent block }
    {
        block.is_credible(sent) && !self.is_known(block)
    }

    fn tells_news(&self, sent: usize, una: TcpSeqNumber, range: Option<(u32, u32)>) -> bool
        ensures { result ≡ tells_news self.now sent una range }
    {
        match range {
            None => false,
            Some(range) => self.is_news(sent, SackBlock::from(una, range)),
        }
    }

    fn told(&self, sent: usize, una: TcpSeqNumber, range: Option<(u32, u32)>) -> Scoreboard
        ensures { result ≡ told self.now sent una range }
    {
        match range {
            None => *self,
            Some(range) => {
                let block = SackBlock::from(una, range);
                if self.is_news(sent, block) {
                    self.added(block)
                } else {
                    *self
                }
            }
        }
    }

    /// Whether one of a segment's blocks tells something new, where `sent` bytes behind SND.UNA were sent: none that
    /// tells of other bytes is believed (RFC 6675, section 2).
    pub fn any_news(&self, sent: usize, una: TcpSeqNumber, ranges: &[Option<(u32, u32)>; 3]) -> bool
        ensures { result ≡ any_news self.now sent una ranges.now }
    {
        let [first, second, third] = *ranges;
        self.tells_news(sent, una, first)
            || (self.tells_news(sent, una, second) || self.tells_news(sent, una, third))
    }

    /// With what a segment's blocks tell, of which the first is the newest (RFC 2018, section 4).
    #[tactic(auto, using(crate::proofs::Telling::told_three))]
    pub fn all_told(
        &self,
        sent: usize,
        una: TcpSeqNumber,
        ranges: &[Option<(u32, u32)>; 3],
    ) -> Scoreboard
        ensures { result ≡ all_told self.now sent una ranges.now }
    {
        let [first, second, third] = *ranges;
        let after = self.told(sent, una, third).told(sent, una, second);
        after.told(sent, una, first)
    }

    /// Once SND.UNA has moved by so many bytes: what lies before it is dropped.
    #[tactic(auto, unfolding(crate::specs::Rfc::Scoreboard::moved))]
    pub fn moved(&self, count: usize) -> Scoreboard
        requires { count < 2 ^ 32 }
        ensures { result ≡ moved self.now count }
    {
        let count = count as u32;
        Scoreboard {
            newest: self.newest.moved(count),
            second: self.second.moved(count),
            third: self.third.moved(count),
            oldest: self.oldest.moved(count),
        }
    }

    // The first place from there on that was not told.
    #[tactic(auto, unfolding(crate::specs::Rfc::Scoreboard::untold))]
    fn untold(&self, place: u32) -> u32
        ensures { result ≡ untold self.now place }
    {
        let place = self.second.passed(self.newest.passed(place));
        self.oldest.passed(self.third.passed(place))
    }

    // The first start of a block behind the place; 0 stands for none.
    #[tactic(auto, unfolding(crate::specs::Rfc::Scoreboard::next_told))]
    fn next_told(&self, place: u32) -> u32
        ensures { result ≡ next_told self.now place }
    {
        let best = self.newest.sooner(place, 0);
        let best = self.second.sooner(place, best);
        let best = self.third.sooner(place, best);
        self.oldest.sooner(place, best)
    }

    /// Where what was told ends, counted from SND.UNA, and 0 where nothing was.
    pub fn highest_told(&self) -> u32
        ensures { result ≡ highest_told self.now }
    {
        let newer = self.newest.end.max(self.second.end);
        newer.max(self.third.end.max(self.oldest.end))
    }

    /// The first hole from a place on, counted from SND.UNA: bytes that the peer lacks, before some that it told
    /// (RFC 6675, section 4, NextSeg).
    pub fn hole_behind(&self, place: usize) -> Option<Hole>
        requires { place < 2 ^ 32 }
        ensures { result ≡ hole_behind self.now place }
    {
        let start = self.untold(place as u32);
        let end = self.next_told(start);
        if end == 0 {
            None
        } else {
            Some(Hole { start, end })
        }
    }
}

impl Hole {
    // Whether it begins in a transmit queue of so many bytes, which are at most 2^30.
    fn begins_in(self, queued: usize) -> bool
        ensures { result ≡ begins_in self queued }
    {
        (self.start as usize) < queued.min(0x4000_0000)
    }
}

/// Where in a transmit queue of so many bytes the retransmission begins: at the hole, or at SND.UNA.
pub fn hole_start(hole: &Option<Hole>, queued: usize) -> usize
    ensures value { result ≡ hole_start hole.now queued }
    ensures small { result < 2 ^ 32 }
{
    match hole {
        Some(hole) if hole.begins_in(queued) => hole.start as usize,
        _ => 0,
    }
}

/// How many bytes it has, of at most `most`: none behind the hole's end.
pub fn hole_size(hole: &Option<Hole>, queued: usize, most: usize) -> usize
    ensures { result ≡ hole_size hole.now queued most }
{
    match hole {
        Some(hole) if hole.begins_in(queued) => {
            most.min((hole.end.saturating_sub(hole.start) as usize).max(1))
        }
        _ => most,
    }
}

/// Its sequence number.
pub fn hole_number(hole: &Option<Hole>, queued: usize, una: TcpSeqNumber) -> TcpSeqNumber
    ensures { result ≡ hole_number hole.now queued una }
{
    match hole {
        None => una,
        Some(_) => una.plus(hole_start(hole, queued)),
    }
}
