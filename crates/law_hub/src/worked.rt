//! Worked rows: the premises of the laws at a hub of two ports, which the check computes.
ghost use Rattle.std.specs.Prelude.{◌≡◌, [], ◌∷◌};
ghost use Rattle.dev_control.specs.declared.rows.StageToken.TheVariants as Tokens;
ghost use Rattle.dev_control.specs.Stages.{begun_with};
ghost use Rattle.hub_ports.specs.declared.rows.HubReply.TheVariants as Answers;
ghost use Rattle.hub_class.specs.Requesting.{requested, request_answer};
ghost use Rattle.hub_class.specs.EndpointZero.{hub_answered, hub_acked};
ghost use Rattle.hub_class.specs.Worked.{hub, setup_ask, in_ask, status_ask, get_status, power_off, get_descriptor};
ghost use Rattle.law_hub.specs.Stages.{Hears, IsReady, told, finished, read_of};

/// The asks of the three stages, and a hub that is ready.
pub fn premises()
    ensures ready { IsReady hub }
    ensures setup { Hears Tokens.Setup setup_ask hub }
    ensures packet { Hears Tokens.In in_ask hub }
    ensures status { Hears Tokens.Out status_ask hub }
    ensures change { request_answer power_off hub ≡ Answers.Done }
    ensures read { request_answer get_status hub ≡ Answers.Bytes (3 ∷ 1 ∷ 0 ∷ 0 ∷ []) }
    ensures unknown { request_answer get_descriptor hub ≡ Answers.Stall }
{}

/// The three kinds of request over their stages.
pub fn stages()
    ensures change { hub_answered in_ask [] (hub_answered setup_ask power_off hub) ≡ finished (begun_with power_off) (requested power_off hub) }
    ensures read { hub_answered status_ask [] (hub_acked in_ask (hub_answered in_ask [] (hub_answered setup_ask get_status hub))) ≡ finished (read_of get_status) hub }
    ensures unknown { hub_answered in_ask [] (hub_answered setup_ask get_descriptor hub) ≡ told get_descriptor hub }
{}
