//! The keys of settings files, by their words. It knows no value.

use amt_script::Key;
use relay_machine::NumberKey;

/// A key of some table. A script's `set` line has some of them too.
#[derive(Clone, Copy, Debug, PartialEq, Eq)]
pub enum FileKey {
    Relay,
    Listen,
    Feed,
    Query4,
    Query6,
    /// One of the relay's numbers.
    Number(NumberKey),
    RotateSeconds,
    Workers,
    LinuxGateways,
    ReportSeconds,
    Family,
    Deliver,
    Control,
    ControlAnywhere,
    Discovery,
    Source,
    Port,
    LinuxRelay,
    Join,
    Name,
    Group,
    Mode,
    /// Those of a join.
    Sources,
}

impl FileKey {
    ghost use Rattle.std.specs.Prelude.{◌≡◌};
    ghost use Rattle.amt_config.specs.FileKey.{word_of};

    /// The word in the file.
    pub fn word(self) -> &'static str
        ensures { result.now ≡ word_of self }
    {
        match self {
            FileKey::Relay => "relay",
            FileKey::Listen => "listen",
            FileKey::Feed => "feed",
            FileKey::Query4 => "query4",
            FileKey::Query6 => "query6",
            FileKey::Number(key) => Key::Number(key).word(),
            FileKey::RotateSeconds => "rotate_seconds",
            FileKey::Workers => "workers",
            FileKey::LinuxGateways => "linux_gateways",
            FileKey::ReportSeconds => "report_seconds",
            FileKey::Family => "family",
            FileKey::Deliver => "deliver",
            FileKey::Control => "control",
            FileKey::ControlAnywhere => "control_anywhere",
            FileKey::Discovery => "discovery",
            FileKey::Source => "source",
            FileKey::Port => "port",
            FileKey::LinuxRelay => "linux_relay",
            FileKey::Join => "join",
            FileKey::Name => "name",
            FileKey::Group => "group",
            FileKey::Mode => "mode",
            FileKey::Sources => "sources",
        }
    }
}
