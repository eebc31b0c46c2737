//! What a call sends: what it relays to the caller, and its own responses to requests.
ghost use Rattle.std.specs.Prelude.{◌≡◌, [], OnOk};
ghost use Rattle.std.specs.Option.{option_copied};
ghost use Rattle.mmtel_output.specs.Sending.{with_response};
ghost use Rattle.mmtel_precedence.specs.Views.{due_diversion_view};
ghost use Rattle.mmtel_call.specs.Diverting.{with_notification_of};
ghost use Rattle.mmtel_call.specs.Requests.{with_refused_request, with_response_to, with_unlisted_response};
ghost use Rattle.mmtel_compose.specs.Responses.{allow_lines};
ghost use Rattle.mmtel_call_services.specs.CallConfig.{further_methods};
ghost use Rattle.mmtel_call.specs.Sending.{with_relay_to_caller, with_status_to, with_status_to_caller};

use crate::calls::Call;
use crate::context::StepContext;
use mmtel_base::{List, NoMemory};
use mmtel_call_services::{Service, unlisted_status};
use mmtel_compose::{OwnResponse, ReceivedMessage, allow_lines, retry_after_lines};
use mmtel_leg::DialogueFault;
use mmtel_message::Line;
use mmtel_output::StepOutput;
use mmtel_precedence::DueDiversion;
use mmtel_transaction::TKey;
use mmtel_types::Side;

impl Call {
    /// Sends a response of this status, without further header fields, to a request of a side.
    pub fn respond_with_status(
        &self,
        step: &StepContext<'_>,
        key: TKey,
        request: &ReceivedMessage,
        code: u16,
        output: &mut StepOutput,
    ) -> Result<(), NoMemory>
        ensures { OnOk result (output.new ≡ with_status_to step.now.config.now self.now key request.now code output.old) }
    {
        output.respond_with_status(
            step.alloc,
            step.sip(),
            key,
            request,
            self.opening.tag.bytes(),
            code,
        )
    }

    /// Sends a response with these further header fields to it.
    fn respond_to(
        &self,
        step: &StepContext<'_>,
        key: TKey,
        request: &ReceivedMessage,
        code: u16,
        named: &List<Line>,
        output: &mut StepOutput,
    ) -> Result<(), NoMemory>
        ensures { OnOk result (output.new
            ≡ with_response_to step.now.config.now self.now key request.now code named.now output.old) }
    {
        let tag = self.opening.tag.bytes();
        let own = OwnResponse {
            code,
            passed: &[],
            named: named.items(),
            body: b"",
        };
        output.respond(step.alloc, step.sip(), key, request, tag, own)
    }

    /// Sends a response of this status, without further header fields, to the INVITE that opened the call.
    pub fn respond_to_caller(
        &self,
        step: &StepContext<'_>,
        code: u16,
        output: &mut StepOutput,
    ) -> Result<(), NoMemory>
        ensures { OnOk result (output.new ≡ with_status_to_caller step.now.config.now self.now code output.old) }
    {
        let opening = &self.opening;
        self.respond_with_status(step, opening.key, &opening.invite, code, output)
    }

    /// Notifies the caller of a diversion that was made, if the forward requires that (TS 24.604 §4.5.2.6).
    pub fn notify_of(
        &self,
        step: &StepContext<'_>,
        due: &DueDiversion<'_>,
        output: &mut StepOutput,
    ) -> Result<(), NoMemory>
        ensures { OnOk result (output.new ≡ with_notification_of step.now.config.now (due_diversion_view due.entry.now) self.now output.old) }
    {
        let opening = &self.opening;
        match opening.notification_lines(step.alloc, step.config, &self.diversions, due)? {
            None => Ok(()),
            Some(lines) => {
                let answered = self.respond_with_lines(step, 181, &lines, output);
                drop(lines);
                answered
            }
        }
    }

    /// Sends a response of this status with these header fields of History-Info to the INVITE that opened the call.
    fn respond_with_lines(
        &self,
        step: &StepContext<'_>,
        code: u16,
        lines: &List<Line>,
        output: &mut StepOutput,
    ) -> Result<(), NoMemory>
        ensures { OnOk result (output.new
            ≡ with_response step.now.config.now.sip self.now.opening.key self.now.opening.invite self.now.opening.tag code
            lines.now [] [] output.old) }
    {
        let opening = &self.opening;
        let tag = opening.tag.bytes();
        let own = OwnResponse {
            code,
            passed: lines.items(),
            named: &[],
            body: b"",
        };
        output.respond(
            step.alloc,
            step.sip(),
            opening.key,
            &opening.invite,
            tag,
            own,
        )
    }

    /// Relays a response of the target to the caller.
    pub fn relay_to_caller(
        &self,
        step: &StepContext<'_>,
        service: Option<&Service>,
        response: &ReceivedMessage,
        output: &mut StepOutput,
    ) -> Result<(), NoMemory>
        ensures { OnOk result (output.new
            ≡ with_relay_to_caller step.now.config.now self.now (option_copied service.entry) response.now output.old) }
    {
        let opening = &self.opening;
        let peer = opening.invite.peer;
        let callee = Side::Callee;
        let lines = opening.copied_lines(
            step.alloc,
            step.config,
            &self.diversions,
            service,
            callee,
            peer,
            response,
        )?;
        let relayed = output.relay_response(
            step.alloc,
            step.sip(),
            opening.key,
            &opening.invite,
            opening.tag.bytes(),
            lines.items(),
            response,
        );
        drop(lines);
        relayed
    }

    /// Sends a response to a request that its leg refused.
    pub fn refuse_invalid(
        &self,
        step: &StepContext<'_>,
        key: TKey,
        request: &ReceivedMessage,
        fault: DialogueFault,
        output: &mut StepOutput,
    ) -> Result<(), NoMemory>
        ensures { OnOk result (output.new ≡ with_refused_request step.now.config.now self.now key request.now fault output.old) }
    {
        match fault {
            DialogueFault::OldCSeq { last: _ } => {
                self.respond_with_status(step, key, request, 500, output)
            }
            DialogueFault::Pending => self.respond_with_status(step, key, request, 491, output),
            DialogueFault::Unfinished => {
                let named = retry_after_lines(step.alloc)?;
                let answered = self.respond_to(step, key, request, 500, &named, output);
                drop(named);
                answered
            }
        }
    }

    /// Sends the response to OPTIONS (RFC 3261 §11.2).
    fn respond_to_options(
        &self,
        step: &StepContext<'_>,
        key: TKey,
        request: &ReceivedMessage,
        output: &mut StepOutput,
    ) -> Result<(), NoMemory>
        ensures { OnOk result (output.new
            ≡ with_response_to step.now.config.now self.now key request.now 200
            (allow_lines (further_methods step.now.config.now)) output.old) }
    {
        let named = allow_lines(step.alloc, step.config.further_methods())?;
        let answered = self.respond_to(step, key, request, 200, &named, output);
        drop(named);
        answered
    }

    /// Sends the response to a request for which the step table has no transition.
    pub fn respond_to_unlisted(
        &self,
        step: &StepContext<'_>,
        key: TKey,
        request: &ReceivedMessage,
        output: &mut StepOutput,
    ) -> Result<(), NoMemory>
        ensures { OnOk result (output.new ≡ with_unlisted_response step.now.config.now self.now key request.now output.old) }
    {
        let status = unlisted_status(request.message.start());
        if status == 200 {
            return self.respond_to_options(step, key, request, output);
        }
        self.respond_with_status(step, key, request, status, output)
    }
}
