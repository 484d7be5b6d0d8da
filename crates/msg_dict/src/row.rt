//! The table of the commands that the boards know (Klipper's MCU_Commands.md and Protocol.md).

ghost use Rattle.std.specs.Prelude.{◌≡◌, ◌<◌, ◌≤◌, ◌^◌, length};
ghost use Rattle.msg_dict.specs.Table.{format_text, own_id, kinds, row_among, row_named, all_rows};

use Kind::{Bytes, Number};

/// A row of the table of commands and answers.
#[derive(Clone, Copy, Debug, PartialEq, Eq)]
pub enum Row {
    Identify,
    AllocateOids,
    GetConfig,
    FinalizeConfig,
    GetUptime,
    EmergencyStop,
    ConfigStepper,
    QueueStep,
    SetNextStepDir,
    ResetStepClock,
    ConfigTrsync,
    TrsyncStart,
    TrsyncSetTimeout,
    TrsyncTrigger,
    StepperStopOnTrigger,
    ConfigEndstop,
    EndstopHome,
    IdentifyResponse,
    Config,
    Uptime,
    TrsyncState,
    Shutdown,
    IsShutdown,
}

/// All rows: those of commands, and then those of answers.
pub const ROWS: [Row; 23] = [
    Row::Identify,
    Row::AllocateOids,
    Row::GetConfig,
    Row::FinalizeConfig,
    Row::GetUptime,
    Row::EmergencyStop,
    Row::ConfigStepper,
    Row::QueueStep,
    Row::SetNextStepDir,
    Row::ResetStepClock,
    Row::ConfigTrsync,
    Row::TrsyncStart,
    Row::TrsyncSetTimeout,
    Row::TrsyncTrigger,
    Row::StepperStopOnTrigger,
    Row::ConfigEndstop,
    Row::EndstopHome,
    Row::IdentifyResponse,
    Row::Config,
    Row::Uptime,
    Row::TrsyncState,
    Row::Shutdown,
    Row::IsShutdown,
];

/// How many of the rows are commands.
pub const COMMANDS: usize = 17;

/// A kind of parameter, as the wire carries it.
#[derive(Clone, Copy, Debug, PartialEq, Eq)]
pub enum Kind {
    Number,
    Bytes,
}

/// What the table says of a row.
#[derive(Clone, Copy)]
struct Entry {
    /// The identifier in the simulated boards' own dictionary.
    id: u32,
    /// The format in a dictionary: a name, and each parameter with its type.
    format: &'static str,
    /// The kinds of the parameters.
    kinds: &'static [Kind],
}

fn told(id: u32, format: &'static str, kinds: &'static [Kind]) -> Entry
    ensures id { result.id ≡ id }
    ensures format { result.format.now ≡ format.now }
    ensures kinds { result.kinds.now ≡ kinds.now }
{
    Entry { id, format, kinds }
}

impl Row {
    fn entry(self) -> Entry
        ensures id { result.id ≡ own_id self }
        ensures format { result.format.now ≡ format_text self }
        ensures kinds { result.kinds.now ≡ kinds self }
        ensures few { length result.kinds.now ≤ 8 }
    {
        match self {
            Row::Identify => told(1, "identify offset=%u count=%c", &[Number; 2]),
            Row::AllocateOids => told(2, "allocate_oids count=%c", &[Number]),
            Row::GetConfig => told(3, "get_config", &[]),
            Row::FinalizeConfig => told(4, "finalize_config crc=%u", &[Number]),
            Row::GetUptime => told(5, "get_uptime", &[]),
            Row::EmergencyStop => told(6, "emergency_stop", &[]),
            Row::ConfigStepper => told(
                7,
                "config_stepper oid=%c step_pin=%c dir_pin=%c invert_step=%c step_pulse_ticks=%u",
                &[Number; 5],
            ),
            Row::QueueStep => told(
                8,
                "queue_step oid=%c interval=%u count=%hu add=%hi",
                &[Number; 4],
            ),
            Row::SetNextStepDir => told(9, "set_next_step_dir oid=%c dir=%c", &[Number; 2]),
            Row::ResetStepClock => told(10, "reset_step_clock oid=%c clock=%u", &[Number; 2]),
            Row::ConfigTrsync => told(11, "config_trsync oid=%c", &[Number]),
            Row::TrsyncStart => told(
                12,
                "trsync_start oid=%c report_clock=%u report_ticks=%u expire_reason=%c",
                &[Number; 4],
            ),
            Row::TrsyncSetTimeout => told(13, "trsync_set_timeout oid=%c clock=%u", &[Number; 2]),
            Row::TrsyncTrigger => told(14, "trsync_trigger oid=%c reason=%c", &[Number; 2]),
            Row::StepperStopOnTrigger => told(
                15,
                "stepper_stop_on_trigger oid=%c trsync_oid=%c",
                &[Number; 2],
            ),
            Row::ConfigEndstop => told(16, "config_endstop oid=%c pin=%c pull_up=%c", &[Number; 3]),
            Row::EndstopHome => told(
                17,
                "endstop_home oid=%c clock=%u sample_ticks=%u sample_count=%c rest_ticks=%u pin_value=%c trsync_oid=%c trigger_reason=%c",
                &[Number; 8],
            ),
            Row::IdentifyResponse => told(
                0,
                "identify_response offset=%u data=%.*s",
                &[Number, Bytes],
            ),
            Row::Config => told(
                32,
                "config is_config=%c crc=%u is_shutdown=%c move_count=%hu",
                &[Number; 4],
            ),
            Row::Uptime => told(33, "uptime high=%u clock=%u", &[Number; 2]),
            Row::TrsyncState => told(
                34,
                "trsync_state oid=%c can_trigger=%c trigger_reason=%c clock=%u",
                &[Number; 4],
            ),
            Row::Shutdown => told(35, "shutdown clock=%u static_string_id=%hu", &[Number; 2]),
            Row::IsShutdown => told(36, "is_shutdown static_string_id=%hu", &[Number]),
        }
    }

    /// The identifier in the simulated boards' own dictionary.
    pub fn own_id(self) -> u32
        ensures { result ≡ own_id self }
    {
        self.entry().id
    }

    /// The format in a dictionary: a name, and each parameter with its type.
    pub fn format(self) -> &'static str
        ensures { result.now ≡ format_text self }
    {
        self.entry().format
    }

    /// The kinds of the parameters.
    pub fn kinds(self) -> &'static [Kind]
        ensures kinds { result.now ≡ kinds self }
        ensures few { length result.now ≤ 8 }
    {
        self.entry().kinds
    }

    /// The row of a format, where it is one of the table.
    #[tactic(auto, unfolding(crate::specs::Table::row_named))]
    pub fn of_format(format: &[u8]) -> Option<Row>
        ensures { result ≡ row_named format.now }
    {
        row_among(&ROWS, format)
    }
}

/// The first of the rows that has this format.
fn row_among(rows: &[Row], format: &[u8]) -> Option<Row>
    ensures { result ≡ row_among format.now rows.now }
{
    match rows {
        [] => None,
        [first, rest @ ..] => {
            if first.format().as_bytes() == format {
                Some(*first)
            } else {
                row_among(rest, format)
            }
        }
    }
}
