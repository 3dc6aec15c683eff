// The events other than samples under power, of a model that passed the tests of its state and memory.
ghost use Rattle.std.specs.Prelude.{◌≡◌, Ok};
ghost use Rattle.events.specs.Event.{accepted, expected, powered_on, powered_off, on_unpowered};
ghost use Rattle.events.specs.OtherEvent.{OtherThanSample, Answering, EventGives};
ghost use Rattle.events.specs.Reply.{reply_of};
ghost use Rattle.parts.specs.Table.{part_of};
ghost use Rattle.trace.specs.Sample.{NoSample};

use chip::model::{BusState, Model};
use parts::answer::Answer;
use parts::part::Part;
use parts::refusal::Refusal;
use trace::event::Event;

// What an accepted event gives: answer, warning flag, next state. A refused event drives nothing, sets no flag and leaves the state as it
// was, so of it there is only the refusal.
#[derive(Clone, Copy, Debug, PartialEq, Eq)]
pub struct Answered {
    pub answer: Answer,
    pub flag: bool,
    pub model: Model,
}

// Power on and off and an expected answer set no flag.
fn accept(answer: Answer, model: Model) -> Answered
    ensures { reply_of model (Ok result) ≡ accepted answer model }
{
    Answered {
        answer,
        flag: false,
        model,
    }
}

// An expected answer: refused with 9 unless it is the present one.
fn expect(model: Model, present: Answer, value: u8) -> Result<Answered, Refusal>
    ensures { reply_of model result ≡ expected model present value }
{
    if value != present.number() {
        return Err(Refusal::Unexpected);
    }
    Ok(accept(present, model))
}

fn power_on(model: Model, bus: BusState) -> Answered
    ensures { reply_of model (Ok result) ≡ powered_on model bus }
{
    accept(
        Answer::HighZ,
        chip::model::with_bus(model, model.status.with_wel(false), bus),
    )
}

fn power_off(part: Part, model: Model) -> Answered
    ensures { reply_of model (Ok result) ≡ powered_off part model }
{
    let kept = power::power::kept_status(part, model.status);
    accept(
        Answer::HighZ,
        chip::model::unpowered(model.part, model.pins, kept),
    )
}

fn on_unpowered(model: Model, event: Event) -> Result<Answered, Refusal>
    ensures { reply_of model result ≡ on_unpowered model event }
{
    match event {
        Event::SpiPowerOn { sample } => {
            let spi = power::power::spi_start(selection::levels::Levels::from(sample));
            Ok(power_on(model, BusState::SpiOn { spi }))
        }
        Event::I2cPowerOn { sample, start } => {
            let i2c = power::power::i2c_start(transfer::levels::Levels::from(sample), start);
            Ok(power_on(model, BusState::I2cOn { i2c }))
        }
        _ => Err(Refusal::Unpowered),
    }
}

// An event other than a sample of a part under power, whose present answer this is.
fn under_power(part: Part, model: Model, present: Answer, event: Event) -> Result<Answered, Refusal>
    requires { (part ≡ part_of model.part) × Answering model.bus present × NoSample event }
    ensures { EventGives model event (reply_of model result) }
{
    match event {
        Event::SpiPowerOn { .. } | Event::I2cPowerOn { .. } => Err(Refusal::Powered),
        Event::PowerOff => Ok(power_off(part, model)),
        Event::Expected { answer } => expect(model, present, answer),
        // those under power are taken in the loop of `samples`
        Event::Sample { .. } => unreachable!(),
    }
}

// An event that is no sample under power. It stores nothing, so it takes no memory, and gives the same on any.
pub fn other_event(part: Part, model: Model, event: Event) -> Result<Answered, Refusal>
    requires { (part ≡ part_of model.part) × OtherThanSample model.bus event }
    ensures { EventGives model event (reply_of model result) }
{
    match model.bus {
        BusState::Unpowered => on_unpowered(model, event),
        BusState::SpiOn { spi } => {
            let present = spi::show::answer_at(spi.last, spi.shown);
            under_power(part, model, present, event)
        }
        BusState::I2cOn { i2c } => {
            let present = i2c::sample::answer_of(i2c.pulling);
            under_power(part, model, present, event)
        }
    }
}
