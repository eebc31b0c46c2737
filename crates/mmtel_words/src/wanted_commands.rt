//! The requested command.
use mmtel_base::Text;

/// The arguments of `serve`.
#[derive(Drop)]
pub struct Serve {
    /// The name of the configuration's file.
    pub config: Text,
    /// The token: 16 lower-case hexadecimal digits, from which branches, tags and Call-IDs are generated.
    pub token: Text,
    /// The maximum number of turns: 1 to 1,000,000,000.
    pub turns: u64,
}

/// The arguments of `replay`: the names of its two files, and the token.
#[derive(Drop)]
pub struct Replay {
    /// The name of the configuration's file.
    pub config: Text,
    /// The name of the script's file.
    pub script: Text,
    /// The token: 16 lower-case hexadecimal digits, from which branches, tags and Call-IDs are generated.
    pub token: Text,
}

/// The requested command.
#[derive(Drop)]
pub enum WantedCommand {
    /// Serve the network.
    Serve(Serve),
    /// Replay a script.
    Replay(Replay),
    /// Check the file of this name: whether it is a service record.
    Check(Text),
    /// Write the charging rows in the store that the configuration of this name names.
    Charges(Text),
    /// Make so many calls of this salt, over links and a keeper in memory.
    Workload {
        /// How many: 1 to 10,000.
        calls: u32,
        /// The salt.
        salt: u32,
    },
}
