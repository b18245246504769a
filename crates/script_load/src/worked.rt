//! Worked values, which the check computes.
ghost use Rattle.std.specs.Prelude.{◌≡◌, [], ◌∷◌, take, codes};
ghost use Rattle.script_load.specs.Load.{drawn, draws, device_line, endpoint_line, reply_line, transfer_lines};

/// The first draws from 1.
pub fn first_draws()
    ensures next { drawn 1 ≡ 1015568748 }
    ensures halves { draws 1 2 ≡ 15496 ∷ 24200 ∷ [] }
{}

/// Lines of devices and endpoints.
pub fn lines()
    ensures high { device_line 10 ≡ codes "dev 10 high\n" }
    ensures first_hub { device_line 15 ≡ codes "dev 15 full 101 5\n" }
    ensures second_hub { device_line 16 ≡ codes "dev 16 full 102 1\n" }
    ensures bulk { endpoint_line [] 1 ≡ codes "ep 1 2 out bulk 512\n" }
    ensures interrupt { endpoint_line (3 ∷ []) 20 ≡ codes "ep 11 1 in interrupt 8 64 1\n" }
    ensures reply { reply_line [] 0 ≡ codes "reply 1 1 in fill 512 0\n" }
    ensures no_reply { reply_line [] 1 ≡ [] }
    ensures get { transfer_lines [] 20 ≡ codes "get 11 1 in 8\norder d 100\n" }
    ensures put { transfer_lines [] 39 ≡ codes "put 20 2 out fill 64 0\norder d 100\n" }
{}
