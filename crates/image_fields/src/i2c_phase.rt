// The phase of an I2C part as fields, and back.
ghost use Rattle.std.specs.Prelude.{◌≡◌};
ghost use Rattle.image_fields.specs.I2cPhase.{a16_address, taking_fields, fields_of, phase_in};

use crate::fields::PhaseFields;
use crate::tag;
use transfer::phase::{Field, Phase};

// A16 where it stands in an address.
fn a16_address(a16: bool) -> u32
    ensures { result ≡ a16_address a16 }
{
    65536 * u32::from(a16)
}

fn taking_fields(field: Field, count: u8, value: u32) -> PhaseFields
    ensures { result ≡ taking_fields field count value }
{
    let (tag, address, detail) = match field {
        Field::Word => (tag::WORD, 0, 0),
        Field::HighByte { a16 } => (tag::HIGH_BYTE, a16_address(a16), 0),
        Field::LowByte { a16, high } => (tag::LOW_BYTE, a16_address(a16), high),
        Field::Data { address } => (tag::I2C_DATA, address, 0),
    };
    PhaseFields {
        tag,
        count,
        value,
        address,
        detail,
    }
}

impl From<Phase> for PhaseFields {
    ghost from_gives = { λ phase fields. fields ≡ fields_of phase };

    fn from(phase: Phase) -> PhaseFields {
        match phase {
            Phase::Rest => PhaseFields::only_tag(tag::REST),
            Phase::Ignoring => PhaseFields::only_tag(tag::IGNORING),
            Phase::Taking {
                field,
                count,
                value,
            } => taking_fields(field, count, value),
            Phase::Sending { address, count } => PhaseFields {
                count,
                address,
                ..PhaseFields::only_tag(tag::SENDING)
            },
        }
    }
}

// The phase that has these fields, if their tag is one.
impl From<PhaseFields> for Phase {
    ghost from_gives = { λ fields phase. phase ≡ phase_in fields };

    #[tactic(auto, unfolding(crate::specs::I2cPhase::phase_in))]
    fn from(fields: PhaseFields) -> Phase {
        let PhaseFields {
            tag,
            count,
            value,
            address,
            detail,
        } = fields;
        let a16 = address == 65536;
        let taking = |field| Phase::Taking {
            field,
            count,
            value,
        };
        match tag {
            tag::REST => Phase::Rest,
            tag::IGNORING => Phase::Ignoring,
            tag::WORD => taking(Field::Word),
            tag::HIGH_BYTE => taking(Field::HighByte { a16 }),
            tag::LOW_BYTE => taking(Field::LowByte { a16, high: detail }),
            tag::I2C_DATA => taking(Field::Data { address }),
            tag::SENDING => Phase::Sending { address, count },
            _ => Phase::Rest,
        }
    }
}
