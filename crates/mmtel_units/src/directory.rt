//! Configurations, scripts and the listing: each valid form of a line once, each refusal once with the number of its line, and the limits; and what is passed to a link of a
//! server's outputs.

mod configurations;
mod delivery;
mod limits;
mod listings;
mod script_links;
mod scripts;
mod tables;
