// A controller in words of its caller's.
ghost use Rattle.std.specs.Prelude.{◌≡◌, length, get_or};
ghost use Rattle.application.specs.Calls.{looks_of};
ghost use Rattle.controllerwords.specs.Controller.{entry_number, loaded};
ghost use Rattle.frame.specs.Frame.{pulls_of};
ghost use Rattle.ring.specs.Ring.{none, live};
ghost use Rattle.words.specs.Words.{lines_number};
ghost use Rattle.gateway.specs.Controller.{looks_words, ControllerMade, ControllerStepped, ControllerSubmitted, ControllerAcknowledged};
ghost use Rattle.gateway.specs.Messages.{command_in};
ghost use Rattle.gateway.specs.Unit.{lines_of};

use controllerwords::Words;
use line::Lines;

// Makes a new controller with its time-out count.
#[unsafe(no_mangle)]
pub extern "C" fn hexbus_controller_make(controller: &mut Words, timeout: u32) -> u32
    ensures { ControllerMade timeout controller.old result controller.new }
{
    let made = application::make(timeout);
    match made.outcome {
        Ok(()) => {
            controllerwords::save_new(controller, made.controller);
            0
        }
        Err(e) => u32::from(e),
    }
}

// Steps a controller through a round.
#[unsafe(no_mangle)]
pub extern "C" fn hexbus_controller_step(
    controller: &mut Words,
    bav: bool,
    hsk: bool,
    nibble: u8,
    busy: bool,
    data: &[u8],
    response: &mut [u8],
    event: &mut [u32; 3],
) -> u32
    ensures { ControllerStepped (lines_of bav hsk nibble) busy controller.old «data».now response.old event.old result controller.new response.new event.new }
{
    if 15 < nibble {
        return 5;
    }
    match controllerround::check(controller, data.len(), response.len()) {
        Ok(()) => {
            let seen = Lines { bav, hsk, nibble };
            controllerround::round(controller, seen, busy, data, response, event);
            0
        }
        Err(e) => u32::from(e),
    }
}

// What a controller pulls after its last step.
#[unsafe(no_mangle)]
pub extern "C" fn hexbus_controller_pulls(controller: &Words) -> u32
    ensures { result ≡ lines_number (pulls_of (loaded controller.now).stage) }
{
    controllerround::pulls(controller)
}

// Submits a command for the next frame.
#[unsafe(no_mangle)]
pub extern "C" fn hexbus_controller_submit(
    controller: &mut Words,
    fields: &[u32; 6],
    data: &[u8],
    response: &[u8],
) -> u32
    ensures { ControllerSubmitted (command_in fields.now) (length «data».now) (length response.now) controller.old result controller.new }
{
    let mut c = controllerwords::load(controller);
    let k = crate::message_calls::command_in(fields);
    match application::submit(&mut c, k, data, response) {
        Ok(()) => {
            controllerwords::save(controller, c);
            0
        }
        Err(e) => u32::from(e),
    }
}

// Acknowledges the request of a code that was handed over.
#[unsafe(no_mangle)]
pub extern "C" fn hexbus_controller_acknowledge(controller: &mut Words, code: u8) -> u32
    ensures { ControllerAcknowledged code controller.old result controller.new }
{
    let mut c = controllerwords::load(controller);
    match application::acknowledge(&mut c, code) {
        Ok(()) => {
            controllerwords::save(controller, c);
            0
        }
        Err(e) => u32::from(e),
    }
}

// Looks at a controller.
#[unsafe(no_mangle)]
pub extern "C" fn hexbus_controller_look(controller: &Words, answer: &mut [u32; 3])
    ensures { answer.new ≡ looks_words (looks_of (loaded controller.now)) }
{
    let l = application::look(controllerwords::load(controller));
    *answer = [
        l.ring.len() as u32,
        words::bit(l.may_start),
        words::bit(l.submitted),
    ];
}

// An entry of a controller's ring.
#[unsafe(no_mangle)]
pub extern "C" fn hexbus_controller_entry(controller: &Words, i: usize) -> u32
    ensures { result ≡ entry_number (get_or (live (loaded controller.now).ring) i none) }
{
    let ring = controllerwords::load_ring(controller);
    controllerwords::entry_number(ring.entry(i))
}
