// The phase of an SPI part as fields, and back.
ghost use Rattle.std.specs.Prelude.{◌≡◌};
ghost use Rattle.image_fields.specs.SpiPhase.{taking_fields, showing_fields, waiting_fields, fields_of, phase_in};

use crate::fields::PhaseFields;
use crate::tag;
use selection::phase::{Action, Field, Phase, Source};

// On I2C other fields and tags: A16 stands in the address, the high byte in the detail.
fn taking_fields(field: Field, count: u8, value: u32) -> PhaseFields
    ensures { result ≡ taking_fields field count value }
{
    let (tag, address, detail) = match field {
        Field::Opcode => (tag::OPCODE, 0, 0),
        Field::ReadAddress => (tag::READ_ADDRESS, 0, 0),
        Field::FastAddress => (tag::FAST_ADDRESS, 0, 0),
        Field::WriteAddress => (tag::WRITE_ADDRESS, 0, 0),
        Field::Dummy { address } => (tag::DUMMY, address, 0),
        Field::Data { address, whole } => (tag::DATA, address, u8::from(whole)),
        Field::StatusByte => (tag::STATUS_BYTE, 0, 0),
    };
    PhaseFields {
        tag,
        count,
        value,
        address,
        detail,
    }
}

fn showing_fields(source: Source, bit: u8) -> PhaseFields
    ensures { result ≡ showing_fields source bit }
{
    let (tag, address, detail) = match source {
        Source::Memory { address } => (tag::MEMORY, address, 0),
        Source::Register => (tag::REGISTER, 0, 0),
        Source::Identity { index } => (tag::IDENTITY, 0, index),
    };
    PhaseFields {
        tag,
        count: bit,
        value: 0,
        address,
        detail,
    }
}

fn waiting_fields(action: Action) -> PhaseFields
    ensures { result ≡ waiting_fields action }
{
    match action {
        Action::SetLatch => PhaseFields::only_tag(tag::SET_LATCH),
        Action::ClearLatch => PhaseFields::only_tag(tag::CLEAR_LATCH),
        Action::FallAsleep => PhaseFields::only_tag(tag::FALL_ASLEEP),
        Action::WriteStatus { byte } => PhaseFields {
            detail: byte,
            ..PhaseFields::only_tag(tag::WRITE_STATUS)
        },
    }
}

impl From<Phase> for PhaseFields {
    ghost from_gives = { λ phase fields. fields ≡ fields_of phase };

    fn from(phase: Phase) -> PhaseFields {
        match phase {
            Phase::Rest => PhaseFields::only_tag(tag::REST),
            Phase::Ignoring => PhaseFields::only_tag(tag::IGNORING),
            Phase::Taking {
                field,
                count,
                value,
            } => taking_fields(field, count, value),
            Phase::Showing { source, bit } => showing_fields(source, bit),
            Phase::Waiting { action } => waiting_fields(action),
            Phase::Pending { address, byte } => PhaseFields {
                address,
                detail: byte,
                ..PhaseFields::only_tag(tag::PENDING)
            },
        }
    }
}

// The phase that has these fields, if their tag is one.
impl From<PhaseFields> for Phase {
    ghost from_gives = { λ fields phase. phase ≡ phase_in fields };

    #[tactic(auto, unfolding(crate::specs::SpiPhase::phase_in))]
    fn from(fields: PhaseFields) -> Phase {
        let PhaseFields {
            tag,
            count,
            value,
            address,
            detail,
        } = fields;
        let taking = |field| Phase::Taking {
            field,
            count,
            value,
        };
        let showing = |source| Phase::Showing { source, bit: count };
        match tag {
            tag::REST => Phase::Rest,
            tag::IGNORING => Phase::Ignoring,
            tag::OPCODE => taking(Field::Opcode),
            tag::READ_ADDRESS => taking(Field::ReadAddress),
            tag::FAST_ADDRESS => taking(Field::FastAddress),
            tag::WRITE_ADDRESS => taking(Field::WriteAddress),
            tag::DUMMY => taking(Field::Dummy { address }),
            tag::DATA => taking(Field::Data {
                address,
                whole: detail == 1,
            }),
            tag::STATUS_BYTE => taking(Field::StatusByte),
            tag::MEMORY => showing(Source::Memory { address }),
            tag::REGISTER => showing(Source::Register),
            tag::IDENTITY => showing(Source::Identity { index: detail }),
            tag::SET_LATCH => selection::rise::waiting(Action::SetLatch),
            tag::CLEAR_LATCH => selection::rise::waiting(Action::ClearLatch),
            tag::FALL_ASLEEP => selection::rise::waiting(Action::FallAsleep),
            tag::WRITE_STATUS => selection::rise::waiting(Action::WriteStatus { byte: detail }),
            tag::PENDING => Phase::Pending {
                address,
                byte: detail,
            },
            _ => Phase::Rest,
        }
    }
}
