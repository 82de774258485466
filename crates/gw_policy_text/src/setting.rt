//! The built-in configuration.

ghost use Rattle.gw_configuration.specs.Reading.{Gives};
ghost use Rattle.gw_policy_text.specs.Document.{configuration};

use crate::read::read_config;
use gw_configuration::{Config, ConfigFault};
use std::alloc::Global;

/// The text of the built-in configuration, with which worked examples are run: two ports, a route,
/// an object of each type and one more, and three rules.
pub const SETTING: &str = "format = 1
[device]
network = 100
instance = 1234
name = \"gw\"
vendor = 999
vendor_name = \"Example\"
model = \"gw-1\"
firmware = \"1\"
software = \"1\"
revision = 12
database = 1
[[port]]
network = 1
address = \"192.168.1.10:47808\"
broadcast = \"192.168.1.255:47808\"
[[port]]
network = 2
address = \"192.168.2.10:47808\"
broadcast = \"192.168.2.255:47808\"
[[route]]
network = 300
port = 2
next = \"192.168.2.20:47808\"
[[object]]
type = 5
instance = 1
name = \"fan\"
default = 0
[[object]]
type = 5
instance = 2
name = \"door\"
default = 0
[[object]]
type = 19
instance = 1
name = \"mode\"
default = 1
states = [\"off\", \"auto\", \"on\"]
[[object]]
type = 40
instance = 1
name = \"note\"
default = \"hi\"
[[object]]
type = 45
instance = 1
name = \"offset\"
default = -5
units = 95
[[object]]
type = 48
instance = 1
name = \"count\"
default = 0
units = 95
[[rule]]
name = \"hide\"
allow = false
operation = [\"read\", \"write\", \"list\"]
object_type = [5]
instance = [[2, 9]]
[[rule]]
name = \"no-desc\"
allow = false
operation = [\"read\"]
object_type = [5]
instance = [1]
property = [28]
[[rule]]
name = \"all\"
allow = true
";

/// The built-in configuration: what its text says, of ports 192.168.1.10 on network 1 and
/// 192.168.2.10 on network 2, the device with instance 1234 on network 100, an object of each type
/// and one more, and three rules. Faults: those of [`read_config`], of which `Memory` alone can come.
pub fn setting_s(alloc: Global) -> Result<Config, ConfigFault>
    ensures { Gives (λ c. c) result (configuration SETTING.now) }
{
    read_config(alloc, SETTING.as_bytes())
}
