//! What a module's body asks of the outside, what it is answered, and how it ends; what answers questions (`World`,
//! `Hosts`), who confirms kept answers (`Confirms`, `ConfirmsNamed`), and what runs bodies (`Engine`). Questions go up
//! from the evaluator, answers come down.
#![tactic(auto)]

mod answer;
mod configs;
mod confirms;
mod end;
mod engine;
mod growing;
mod hosts;
mod pairs;
mod parts;
mod question;
mod share;
mod table;
mod variables;
mod world;

pub use answer::Answer;
pub use confirms::ConfirmsNamed;
pub use end::{Config, End, Finish, Turn};
pub use engine::Engine;
pub use growing::GrowingPairs;
pub use hosts::{Hosts, NoHosts};
pub use pairs::Pairs;
pub use question::{Filter, Given, How, Member, Question, SayKind, Saying};
pub use share::Share;
pub use table::{Table, find_in};
pub use variables::NamedVariables;
pub use world::{Confirms, World};
