//! Records joined into events.
//!
//! Records of one event share a key: its time and its serial. They come one by one and mixed with those of other
//! events, so they wait in groups, one for each key. The least group is released as an event once it is ripe: its end
//! has arrived (an EOE or a PROCTITLE), a record more than two seconds above it was seen, or more waits than the limits
//! allow. What is released stays released: a record that comes for its key later makes a new group, whose event may
//! then be late.
//!
//! specs/ says all of this of plain lists, of the records that wait in the order of arrival and of the keys that are
//! closed; `StandsFor` ties a joiner's groups to them.
#![tactic(auto)]

mod clock;
mod event;
mod group;
mod group_map;
mod join;
mod kinds;
mod laws;
mod parts;
mod records;
mod releases;
mod spare;

pub use clock::JoinClock;
pub use event::{Event, EventView, Taken};
pub use group::GroupView;
pub use join::Join;
pub use laws::{
    a_joiner_is_made_again, events_are_dated, releases_end, settled_events_hold_all,
    states_are_sound,
};
pub use parts::Parts;
pub use records::Records;
pub use releases::{join_all, release_ripe};
