//! What a run is asked for, beside its configuration.

ghost use Rattle.std.proofs.Props.{props};
ghost use Rattle.std.specs.Prelude.{◌<◌, ◌^◌, IfSome};

/// What `run` is asked for.
#[derive(Drop)]
pub struct RunOptions {
    /// The file of the configuration.
    pub config: String,
    /// The file that the log is appended to. Without one it goes to standard output.
    pub log: Option<String>,
    /// Whether it goes on if the log fails: what is denied is withheld then, and its lines wait. Then `log` is there.
    pub holds: bool,
    /// How many turns are served.
    pub turns: u64,
    /// Whether it is reported at the start what is served.
    pub verbose: bool,
    /// How many seconds lie between two reports of what was done. Without it there are none.
    pub stats: Option<u64>,
    /// Whether each report says of each rule how often it decided, and not only the first of each hour and the last. Then `stats` is
    /// there.
    pub stats_rules: bool,
    /// The file that the state is kept in. Without one nothing outlives the run.
    pub state: Option<String>,
    /// The file whose being there asks for the configuration to be read again. Without one it is read once.
    pub reload: Option<String>,
    /// The configuration whose rules are on trial. It is there if `trial_log` is.
    pub trial: Option<String>,
    /// The file that the asks are appended to on which the rules on trial and those in force differ.
    pub trial_log: Option<String>,
    /// Whether that file has each ask that the rules on trial deny, also where those in force deny it. Then `trial` is there.
    pub trial_all: bool,
    /// The file that allowed asks are appended to whose deciding rule says so.
    pub audit: Option<String>,
    /// Whether each line of the log begins with the time at which it was written. Then `log` is there.
    pub stamp: bool,
    /// The file that the counts are written to for a collector of metrics.
    pub metrics: Option<String>,
    pub ghost few: { turns < 2 ^ 63 },
    pub ghost seconds: { IfSome stats (λ n. 0 < n) } by { Prim.hlevel props },
}
