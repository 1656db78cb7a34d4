// The theory of the game, without any function: strategies, plays and winning, positions and their ranks, beliefs, and tables read as
// strategies.
#![tactic(auto)]
